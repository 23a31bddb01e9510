//! The calls of a handle. If it leads to nothing, each but `start` answers `NotOpen`. A call that doesn't
//! answer `Done` sets nothing but the length of a text for which the room is too small.

ghost use Rattle.std.specs.Prelude.{◌≡◌, [], ◌∷◌, ◌++◌, IsSome, None, Ok, option_to_list, reverse};
ghost use Rattle.sq_value.specs.declared.value.Value.TheVariants.{Null};
ghost use Rattle.sq_exchange.specs.Number.{number_value};
ghost use Rattle.sq_exchange.specs.declared.answer.Answer.TheVariants.{AlreadyOpen, BadArguments, BadValue, Done, NoMemory, Refused};
ghost use Rattle.sq_host.specs.Asked.{and_then, asked, set_answer, set_value};
ghost use Rattle.sq_host.specs.Calls.{AreRefused, Called, IsOf, IsOutOfBounds, last_of, machine_of, made_last, modules_of, opened, procedure_named, row_read, rows_kept, rows_named, schemas_of, taken, unopened};
ghost use Rattle.sq_host.specs.Changes.{start_answer, values_of, with_value};
ghost use Rattle.sq_host.specs.Host.{leads_to};
ghost use Rattle.sq_host.specs.Unfit.{set_place, unfit_in};

use crate::handle::Handle;
use crate::host::Host;
use crate::set::set;
use sq_exchange::{Answer, number_value, spelled_value, text_value};
use sq_value::Value;
use std::alloc::Global;

impl Handle {
    /// Makes the handle lead to a host without texts.
    pub fn start(&mut self, alloc: Global) -> Answer
        ensures answer { ¬ (result ≡ NoMemory) → result ≡ start_answer (leads_to self.old) }
        ensures none { ¬ (result ≡ Done) → leads_to self.new ≡ leads_to self.old }
    {
        if let Some(host) = self.take(alloc) {
            self.put(host);
            return Answer::AlreadyOpen;
        }
        match Box::new(alloc, Host::new(alloc)) {
            Ok(host) => {
                self.put(host);
                Answer::Done
            }
            Err(_) => Answer::NoMemory,
        }
    }

    /// Adds a schema text.
    pub fn add_schema(&mut self, alloc: Global, text: &[u8]) -> Answer
        ensures answer { ¬ (result ≡ NoMemory)
            → result ≡ set_answer (asked (leads_to self.old) (λ h. unopened h.processor)) }
        ensures added { result ≡ Done
            → schemas_of (leads_to self.new) ≡ schemas_of (leads_to self.old) ++ text.now ∷ [] }
        ensures none { ¬ (result ≡ Done) → schemas_of (leads_to self.new) ≡ schemas_of (leads_to self.old) }
        ensures modules { modules_of (leads_to self.new) ≡ modules_of (leads_to self.old) }
        ensures machine { machine_of (leads_to self.new) ≡ machine_of (leads_to self.old) }
    {
        let Some(mut host) = self.take(alloc) else {
            return Answer::NotOpen;
        };
        let answer = host.add_schema(alloc, text);
        self.put(host);
        answer
    }

    /// Adds a module text.
    pub fn add_module(&mut self, alloc: Global, text: &[u8]) -> Answer
        ensures answer { ¬ (result ≡ NoMemory)
            → result ≡ set_answer (asked (leads_to self.old) (λ h. unopened h.processor)) }
        ensures added { result ≡ Done
            → modules_of (leads_to self.new) ≡ modules_of (leads_to self.old) ++ text.now ∷ [] }
        ensures none { ¬ (result ≡ Done) → modules_of (leads_to self.new) ≡ modules_of (leads_to self.old) }
        ensures schemas { schemas_of (leads_to self.new) ≡ schemas_of (leads_to self.old) }
        ensures machine { machine_of (leads_to self.new) ≡ machine_of (leads_to self.old) }
    {
        let Some(mut host) = self.take(alloc) else {
            return Answer::NotOpen;
        };
        let answer = host.add_module(alloc, text);
        self.put(host);
        answer
    }

    /// Opens a processor of the texts, in which a table has this many row numbers: at least one, and at most `MOST_ROW_NUMBERS`.
    pub fn open(&mut self, alloc: Global, row_numbers: u64) -> Answer
        ensures opened { result ≡ Done → IsOf row_numbers
            (schemas_of (leads_to self.old)) (modules_of (leads_to self.old))
            (machine_of (leads_to self.new)) }
        ensures refused { result ≡ Refused
            → AreRefused row_numbers (schemas_of (leads_to self.old)) (modules_of (leads_to self.old)) }
        ensures already { result ≡ AlreadyOpen → IsSome (machine_of (leads_to self.old)) }
        ensures numbers { result ≡ BadValue → IsOutOfBounds row_numbers }
        ensures none { ¬ (result ≡ Done) → machine_of (leads_to self.new) ≡ machine_of (leads_to self.old) }
    {
        let Some(mut host) = self.take(alloc) else {
            return Answer::NotOpen;
        };
        let answer = host.open(alloc, row_numbers);
        self.put(host);
        answer
    }

    /// Sets the number of the procedure of this module and name.
    pub fn procedure(
        &mut self,
        alloc: Global,
        module: &[u8],
        name: &[u8],
        number: &mut usize,
    ) -> Answer
        ensures answer { ¬ (result ≡ NoMemory)
            → result ≡ set_answer (and_then (procedure_named «module».now name.now)
            (opened (machine_of (leads_to self.old)))) }
        ensures number { ¬ (result ≡ NoMemory)
            → number.new ≡ set_value (and_then (procedure_named «module».now name.now)
            (opened (machine_of (leads_to self.old)))) number.old }
        ensures none { result ≡ NoMemory → number.new ≡ number.old }
        ensures same { leads_to self.new ≡ leads_to self.old }
    {
        let Some(host) = self.take(alloc) else {
            return Answer::NotOpen;
        };
        let answer = set(host.procedure(alloc, module, name), number);
        self.put(host);
        answer
    }

    /// Adds a number to the values of the next call.
    pub fn add_number(&mut self, alloc: Global, unscaled: i64, scale: u32) -> Answer
        ensures answer { ¬ (result ≡ NoMemory)
            → result ≡ set_answer (asked (leads_to self.old) (λ _. number_value unscaled scale)) }
        ensures values { result ≡ Done
            → values_of (leads_to self.new)
            ≡ with_value (values_of (leads_to self.old)) (number_value unscaled scale) }
        ensures none { ¬ (result ≡ Done) → values_of (leads_to self.new) ≡ values_of (leads_to self.old) }
    {
        self.add(alloc, number_value(unscaled, scale))
    }

    /// Adds the number that a text spells.
    pub fn add_digits(&mut self, alloc: Global, digits: &[u8]) -> Answer {
        self.add(alloc, spelled_value(digits))
    }

    /// Adds a text.
    pub fn add_text(&mut self, alloc: Global, text: &[u8]) -> Answer {
        self.add(alloc, text_value(alloc, text))
    }

    /// Adds what starts a parameter at 0 or blanks.
    pub fn add_start(&mut self, alloc: Global) -> Answer
        ensures answer { ¬ (result ≡ NoMemory)
            → result ≡ set_answer (asked (leads_to self.old) (λ _. Ok Null)) }
        ensures values { result ≡ Done
            → values_of (leads_to self.new) ≡ with_value (values_of (leads_to self.old)) (Ok Null) }
        ensures none { ¬ (result ≡ Done) → values_of (leads_to self.new) ≡ values_of (leads_to self.old) }
    {
        self.add(alloc, Ok(Value::Null))
    }

    fn add(&mut self, alloc: Global, value: Result<Value, Answer>) -> Answer
        ensures answer { ¬ (result ≡ NoMemory)
            → result ≡ set_answer (asked (leads_to self.old) (λ _. value)) }
        ensures values { result ≡ Done
            → values_of (leads_to self.new) ≡ with_value (values_of (leads_to self.old)) (value) }
        ensures none { ¬ (result ≡ Done) → values_of (leads_to self.new) ≡ values_of (leads_to self.old) }
    {
        let Some(mut host) = self.take(alloc) else {
            return Answer::NotOpen;
        };
        let answer = host.add(value);
        self.put(host);
        answer
    }

    /// Drops the values that were added since the last call.
    pub fn drop_values(&mut self, alloc: Global) -> Answer
        ensures answer { result ≡ set_answer (asked (leads_to self.old) (λ h. Ok h.values.items)) }
        ensures values { values_of (leads_to self.new) ≡ [] }
    {
        let Some(mut host) = self.take(alloc) else {
            return Answer::NotOpen;
        };
        host.drop_values(alloc);
        self.put(host);
        Answer::Done
    }

    /// Sets the place of the first value that doesn't fit the procedure, and answers `BadArguments`; or `Done` if all fit.
    pub fn checked_values(&mut self, alloc: Global, procedure: usize, place: &mut usize) -> Answer
        ensures answer { ¬ (result ≡ NoMemory) → result ≡ set_answer
            (and_then (taken procedure (values_of (leads_to self.old)))
            (opened (machine_of (leads_to self.old)))) }
        ensures place { ¬ (result ≡ NoMemory) → place.new ≡ set_place
            (and_then (unfit_in procedure (values_of (leads_to self.old)))
            (opened (machine_of (leads_to self.old)))) place.old }
        ensures none { ¬ (result ≡ BadArguments) → place.new ≡ place.old }
        ensures same { leads_to self.new ≡ leads_to self.old }
    {
        let Some(host) = self.take(alloc) else {
            return Answer::NotOpen;
        };
        let unfit = host.find_unfit(alloc, procedure);
        self.put(host);
        match unfit {
            Ok(None) => Answer::Done,
            Ok(Some(found)) => {
                *place = found;
                Answer::BadArguments
            }
            Err(answer) => answer,
        }
    }

    /// Calls the procedure of this number with the values that were added, which are then gone.
    pub fn call(&mut self, alloc: Global, procedure: usize) -> Answer
        ensures answer { ¬ (result ≡ NoMemory) → result ≡ set_answer
            (and_then (taken procedure (values_of (leads_to self.old)))
            (opened (machine_of (leads_to self.old)))) }
        ensures called { result ≡ Done → Called (machine_of (leads_to self.old)) procedure
            (values_of (leads_to self.old)) (made_last (leads_to self.new)) (machine_of (leads_to self.new)) }
        ensures none { ¬ (result ≡ Done) → machine_of (leads_to self.new) ≡ machine_of (leads_to self.old) }
        ensures values { values_of (leads_to self.new) ≡ [] }
    {
        let Some(mut host) = self.take(alloc) else {
            return Answer::NotOpen;
        };
        let answer = host.call(alloc, procedure);
        self.put(host);
        answer
    }

    /// Begins with the rows of the base table of this user and name.
    pub fn read_table(&mut self, alloc: Global, user: &[u8], name: &[u8]) -> Answer
        ensures answer { ¬ (result ≡ NoMemory) → result ≡ set_answer
            (and_then (rows_named user.now name.now) (opened (machine_of (leads_to self.old)))) }
        ensures rows { result ≡ Done
            → and_then (rows_named user.now name.now) (opened (machine_of (leads_to self.old)))
            ≡ Ok (reverse (rows_kept (leads_to self.new))) }
        ensures none { ¬ (result ≡ Done) → rows_kept (leads_to self.new) ≡ rows_kept (leads_to self.old) }
        ensures machine { machine_of (leads_to self.new) ≡ machine_of (leads_to self.old) }
    {
        let Some(mut host) = self.take(alloc) else {
            return Answer::NotOpen;
        };
        let answer = host.read_table(alloc, user, name);
        self.put(host);
        answer
    }

    /// Goes on to the next row, whose values are then the outputs; `NoRow` if there is none.
    pub fn next_row(&mut self, alloc: Global) -> Answer
        ensures answer { result ≡ set_answer (asked (leads_to self.old) (λ h. last_of h.rows.items)) }
        ensures rows { rows_kept (leads_to self.old)
            ≡ rows_kept (leads_to self.new) ++ option_to_list (row_read (leads_to self.new)) }
        ensures machine { machine_of (leads_to self.new) ≡ machine_of (leads_to self.old) }
    {
        let Some(mut host) = self.take(alloc) else {
            return Answer::NotOpen;
        };
        let answer = host.next_row();
        self.put(host);
        answer
    }

    /// Frees all that the handle leads to. It then leads to nothing.
    pub fn close(&mut self, alloc: Global) -> Answer
        ensures answer { result ≡ set_answer (asked (leads_to self.old) (λ h. Ok h.values.items)) }
        ensures closed { leads_to self.new ≡ None }
    {
        match self.take(alloc) {
            Some(host) => {
                drop(host);
                Answer::Done
            }
            None => Answer::NotOpen,
        }
    }
}
