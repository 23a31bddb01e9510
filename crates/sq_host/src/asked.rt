//! The calls of a handle that ask and change nothing.

ghost use Rattle.std.specs.Prelude.{◌≡◌};
ghost use Rattle.sq_exchange.specs.declared.answer.Answer.TheVariants.{NoMemory};
ghost use Rattle.sq_host.specs.Asked.{put_answer, put_length, put_room, set_answer, set_value};
ghost use Rattle.sq_host.specs.Host.{leads_to};
ghost use Rattle.sq_host.specs.Calls.{machine_of, made_last};
ghost use Rattle.sq_host.specs.Outputs as spec;
ghost use Rattle.sq_host.specs.Told.{CauseTold, FaultTold, Puts};

use crate::handle::Handle;
use crate::set::{put_words, set};
use sq_exchange::{Answer, put_text};
use std::alloc::Global;

impl Handle {
    /// Puts the line of the last refusal into a room; an empty one if there is none.
    pub fn refusal(&mut self, alloc: Global, room: &mut [u8], count: &mut usize) -> Answer
        ensures answer { result ≡ put_answer (spec.line_behind (leads_to self.old)) room.old }
        ensures room { room.new ≡ put_room (spec.line_behind (leads_to self.old)) room.old }
        ensures count { count.new ≡ put_length (spec.line_behind (leads_to self.old)) count.old }
        ensures same { leads_to self.new ≡ leads_to self.old }
    {
        let Some(host) = self.take(alloc) else {
            return Answer::NotOpen;
        };
        let answer = put_text(host.line.as_slice(), room, count);
        self.put(host);
        answer
    }

    /// Puts the fault for which a procedure answers 42000 into a room; no words if it has none.
    #[tactic(auto, using(crate::proofs::Telling::puts_fault, crate::proofs::Telling::puts_no_fault))]
    pub fn why(
        &mut self,
        alloc: Global,
        procedure: usize,
        room: &mut [u8],
        count: &mut usize,
    ) -> Answer
        ensures told { Puts (FaultTold procedure (machine_of (leads_to self.old)))
            room.old room.new count.old count.new result }
        ensures same { leads_to self.new ≡ leads_to self.old }
    {
        let Some(host) = self.take(alloc) else {
            return Answer::NotOpen;
        };
        let words = host.why(alloc, procedure);
        self.put(host);
        put_words(words, room, count)
    }

    /// Puts why the last call did not end with 00000 into a room, as a trace says it; no words if it did.
    #[tactic(auto, using(crate::proofs::Telling::puts_cause, crate::proofs::Telling::puts_no_cause))]
    pub fn cause(&mut self, alloc: Global, room: &mut [u8], count: &mut usize) -> Answer
        ensures told { Puts (CauseTold (machine_of (leads_to self.old)) (made_last (leads_to self.old)))
            room.old room.new count.old count.new result }
        ensures same { leads_to self.new ≡ leads_to self.old }
    {
        let Some(host) = self.take(alloc) else {
            return Answer::NotOpen;
        };
        let words = host.cause(alloc);
        self.put(host);
        put_words(words, room, count)
    }

    /// Sets SQLSTATE, with a zero after it, and SQLCODE of the last call.
    pub fn status(&mut self, alloc: Global, state: &mut [u8; 6], code: &mut i32) -> Answer
        ensures answer { result ≡ set_answer (spec.status_behind (leads_to self.old)) }
        ensures state { state.new ≡ set_value (spec.state_behind (leads_to self.old)) state.old }
        ensures code { code.new ≡ set_value (spec.code_behind (leads_to self.old)) code.old }
        ensures same { leads_to self.new ≡ leads_to self.old }
    {
        let Some(host) = self.take(alloc) else {
            return Answer::NotOpen;
        };
        let status = host.status();
        self.put(host);
        match status {
            Ok(status) => {
                let [a, b, c, d, e] = status.sqlstate();
                *state = [a, b, c, d, e, 0];
                *code = status.sqlcode();
                Answer::Done
            }
            Err(answer) => answer,
        }
    }

    /// Sets how many values the last call or row gave.
    pub fn outputs(&mut self, alloc: Global, count: &mut usize) -> Answer
        ensures answer { result ≡ set_answer (spec.count_behind (leads_to self.old)) }
        ensures count { count.new ≡ set_value (spec.count_behind (leads_to self.old)) count.old }
        ensures same { leads_to self.new ≡ leads_to self.old }
    {
        let Some(host) = self.take(alloc) else {
            return Answer::NotOpen;
        };
        let answer = set(host.count(), count);
        self.put(host);
        answer
    }

    /// Puts the name of a parameter that the last call set into a room.
    pub fn output_name(
        &mut self,
        alloc: Global,
        place: usize,
        room: &mut [u8],
        count: &mut usize,
    ) -> Answer
        ensures answer { result ≡ put_answer (spec.name_behind (leads_to self.old) place) room.old }
        ensures room { room.new ≡ put_room (spec.name_behind (leads_to self.old) place) room.old }
        ensures count { count.new ≡ put_length (spec.name_behind (leads_to self.old) place) count.old }
        ensures same { leads_to self.new ≡ leads_to self.old }
    {
        let Some(host) = self.take(alloc) else {
            return Answer::NotOpen;
        };
        let name = host.name(place);
        self.put(host);
        match name {
            Ok(name) => put_text(name.codes(), room, count),
            Err(answer) => answer,
        }
    }

    /// Sets the place of the parameter of this name among those that the last call set.
    pub fn output_place(&mut self, alloc: Global, name: &[u8], place: &mut usize) -> Answer
        ensures answer { ¬ (result ≡ NoMemory)
            → result ≡ set_answer (spec.place_behind (leads_to self.old) name.now) }
        ensures place { ¬ (result ≡ NoMemory)
            → place.new ≡ set_value (spec.place_behind (leads_to self.old) name.now) place.old }
        ensures none { result ≡ NoMemory → place.new ≡ place.old }
        ensures same { leads_to self.new ≡ leads_to self.old }
    {
        let Some(host) = self.take(alloc) else {
            return Answer::NotOpen;
        };
        let answer = set(host.place(alloc, name), place);
        self.put(host);
        answer
    }

    /// Sets the kind of a value.
    pub fn output_kind(&mut self, alloc: Global, place: usize, kind: &mut i32) -> Answer
        ensures answer { result ≡ set_answer (spec.kind_behind (leads_to self.old) place) }
        ensures kind { kind.new ≡ set_value (spec.kind_behind (leads_to self.old) place) kind.old }
        ensures same { leads_to self.new ≡ leads_to self.old }
    {
        let Some(host) = self.take(alloc) else {
            return Answer::NotOpen;
        };
        let answer = set(host.kind(place), kind);
        self.put(host);
        answer
    }

    /// Sets a value that is a number.
    pub fn output_number(
        &mut self,
        alloc: Global,
        place: usize,
        unscaled: &mut i64,
        scale: &mut u32,
    ) -> Answer
        ensures answer { result ≡ set_answer (spec.number_behind (leads_to self.old) place) }
        ensures unscaled { unscaled.new
            ≡ set_value (spec.unscaled_behind (leads_to self.old) place) unscaled.old }
        ensures scale { scale.new ≡ set_value (spec.scale_behind (leads_to self.old) place) scale.old }
        ensures same { leads_to self.new ≡ leads_to self.old }
    {
        let Some(host) = self.take(alloc) else {
            return Answer::NotOpen;
        };
        let number = host.number(place);
        self.put(host);
        match number {
            Ok(number) => {
                *unscaled = number.unscaled();
                *scale = number.scale() as u32;
                Answer::Done
            }
            Err(answer) => answer,
        }
    }

    /// Puts the digits of a value that is a number into a room.
    pub fn output_digits(
        &mut self,
        alloc: Global,
        place: usize,
        room: &mut [u8],
        count: &mut usize,
    ) -> Answer
        ensures answer { ¬ (result ≡ NoMemory)
            → result ≡ put_answer (spec.digits_behind (leads_to self.old) place) room.old }
        ensures room { ¬ (result ≡ NoMemory)
            → room.new ≡ put_room (spec.digits_behind (leads_to self.old) place) room.old }
        ensures count { ¬ (result ≡ NoMemory)
            → count.new ≡ put_length (spec.digits_behind (leads_to self.old) place) count.old }
        ensures none { result ≡ NoMemory → (room.new ≡ room.old) × (count.new ≡ count.old) }
        ensures same { leads_to self.new ≡ leads_to self.old }
    {
        let Some(host) = self.take(alloc) else {
            return Answer::NotOpen;
        };
        let digits = host.digits(alloc, place);
        self.put(host);
        match digits {
            Ok(digits) => put_text(digits.as_slice(), room, count),
            Err(answer) => answer,
        }
    }

    /// Puts a value that is a text into a room.
    pub fn output_text(
        &mut self,
        alloc: Global,
        place: usize,
        room: &mut [u8],
        count: &mut usize,
    ) -> Answer
        ensures answer { result ≡ put_answer (spec.text_behind (leads_to self.old) place) room.old }
        ensures room { room.new ≡ put_room (spec.text_behind (leads_to self.old) place) room.old }
        ensures count { count.new ≡ put_length (spec.text_behind (leads_to self.old) place) count.old }
        ensures same { leads_to self.new ≡ leads_to self.old }
    {
        let Some(host) = self.take(alloc) else {
            return Answer::NotOpen;
        };
        let answer = match host.text(place) {
            Ok(codes) => put_text(codes, room, count),
            Err(answer) => answer,
        };
        self.put(host);
        answer
    }
}
