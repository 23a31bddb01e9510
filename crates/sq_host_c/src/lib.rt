//! The calls of a handle as functions for C, which `host/sqmod.c` calls. Each answers the code of the
//! handle's answer.
//!
//! C hands in the memory of a handle, in which it has put zeros before the first call. No pointer is null.
#![tactic(auto)]

ghost use Rattle.std.specs.Prelude.{◌≡◌, Ok};
ghost use Rattle.sq_exchange.specs.Answer.{answer_text, code};
ghost use Rattle.sq_host.specs.Asked.{put_answer, put_length, put_room, set_answer, set_value};
ghost use Rattle.sq_host.specs.Calls.{machine_of, made_last};
ghost use Rattle.sq_host.specs.Host.{leads_to};
ghost use Rattle.sq_host.specs.Outputs as outputs;
ghost use Rattle.sq_host.specs.Told.{CauseTold, FaultTold, PutsCode};

use sq_exchange::{VERSION, answer_text, put_text};
use sq_host::Handle;
use std::alloc::Global;

/// Puts the meaning of an answer's code into a room.
#[unsafe(no_mangle)]
pub extern "C" fn sq_host_error_text(error: i32, room: &mut [u8], count: &mut usize) -> i32
    ensures answer { result ≡ code (put_answer (Ok (answer_text error)) room.old) }
    ensures room { room.new ≡ put_room (Ok (answer_text error)) room.old }
    ensures count { count.new ≡ put_length (Ok (answer_text error)) count.old }
{
    put_text(answer_text(error), room, count).code()
}

/// Puts the version of the sources into a room.
#[unsafe(no_mangle)]
pub extern "C" fn sq_host_version(room: &mut [u8], count: &mut usize) -> i32 {
    put_text(VERSION.as_bytes(), room, count).code()
}

/// Makes the handle lead to a host without texts.
#[unsafe(no_mangle)]
pub extern "C" fn sq_host_start(alloc: Global, handle: &mut Handle) -> i32 {
    handle.start(alloc).code()
}

/// Adds a schema text.
#[unsafe(no_mangle)]
pub extern "C" fn sq_host_add_schema(alloc: Global, handle: &mut Handle, text: &[u8]) -> i32 {
    handle.add_schema(alloc, text).code()
}

/// Adds a module text.
#[unsafe(no_mangle)]
pub extern "C" fn sq_host_add_module(alloc: Global, handle: &mut Handle, text: &[u8]) -> i32 {
    handle.add_module(alloc, text).code()
}

/// Opens a processor of the texts, in which each table has this many row numbers.
#[unsafe(no_mangle)]
pub extern "C" fn sq_host_open(alloc: Global, handle: &mut Handle, row_numbers: u64) -> i32 {
    handle.open(alloc, row_numbers).code()
}

/// Puts the line of the last refusal into a room; an empty one if nothing was refused.
#[unsafe(no_mangle)]
pub extern "C" fn sq_host_refusal(
    alloc: Global,
    handle: &mut Handle,
    room: &mut [u8],
    count: &mut usize,
) -> i32
    ensures answer { result ≡ code (put_answer (outputs.line_behind (leads_to handle.old)) room.old) }
    ensures room { room.new ≡ put_room (outputs.line_behind (leads_to handle.old)) room.old }
    ensures count { count.new ≡ put_length (outputs.line_behind (leads_to handle.old)) count.old }
{
    handle.refusal(alloc, room, count).code()
}

/// Sets the number of the procedure of this module and name.
#[unsafe(no_mangle)]
pub extern "C" fn sq_host_procedure(
    alloc: Global,
    handle: &mut Handle,
    module: &[u8],
    name: &[u8],
    number: &mut usize,
) -> i32 {
    handle.procedure(alloc, module, name, number).code()
}

/// Puts the fault for which a procedure answers 42000 into a room; no words if it has none.
#[unsafe(no_mangle)]
pub extern "C" fn sq_host_why(
    alloc: Global,
    handle: &mut Handle,
    procedure: usize,
    room: &mut [u8],
    count: &mut usize,
) -> i32
    ensures { PutsCode (FaultTold procedure (machine_of (leads_to handle.old)))
        room.old room.new count.old count.new result }
{
    handle.why(alloc, procedure, room, count).code()
}

/// Puts why the last call did not end with 00000 into a room; no words if it did.
#[unsafe(no_mangle)]
pub extern "C" fn sq_host_cause(
    alloc: Global,
    handle: &mut Handle,
    room: &mut [u8],
    count: &mut usize,
) -> i32
    ensures { PutsCode (CauseTold (machine_of (leads_to handle.old)) (made_last (leads_to handle.old)))
        room.old room.new count.old count.new result }
{
    handle.cause(alloc, room, count).code()
}

/// Adds a number to the values of the next call.
#[unsafe(no_mangle)]
pub extern "C" fn sq_host_add_number(
    alloc: Global,
    handle: &mut Handle,
    unscaled: i64,
    scale: u32,
) -> i32 {
    handle.add_number(alloc, unscaled, scale).code()
}

/// Adds the number that a text spells to the values of the next call.
#[unsafe(no_mangle)]
pub extern "C" fn sq_host_add_digits(alloc: Global, handle: &mut Handle, digits: &[u8]) -> i32 {
    handle.add_digits(alloc, digits).code()
}

/// Adds a text to the values of the next call.
#[unsafe(no_mangle)]
pub extern "C" fn sq_host_add_text(alloc: Global, handle: &mut Handle, text: &[u8]) -> i32 {
    handle.add_text(alloc, text).code()
}

/// Adds the value that starts a parameter at 0 or blanks.
#[unsafe(no_mangle)]
pub extern "C" fn sq_host_add_start(alloc: Global, handle: &mut Handle) -> i32 {
    handle.add_start(alloc).code()
}

/// Drops the values that were added since the last call.
#[unsafe(no_mangle)]
pub extern "C" fn sq_host_drop_values(alloc: Global, handle: &mut Handle) -> i32 {
    handle.drop_values(alloc).code()
}

/// Sets the place of the first value that doesn't fit the procedure, if one doesn't.
#[unsafe(no_mangle)]
pub extern "C" fn sq_host_checked_values(
    alloc: Global,
    handle: &mut Handle,
    procedure: usize,
    place: &mut usize,
) -> i32 {
    handle.checked_values(alloc, procedure, place).code()
}

/// Calls the procedure of this number with the values that were added, and drops these.
#[unsafe(no_mangle)]
pub extern "C" fn sq_host_call(alloc: Global, handle: &mut Handle, procedure: usize) -> i32 {
    handle.call(alloc, procedure).code()
}

/// Sets SQLSTATE, with a zero after it, and SQLCODE of the last call.
#[unsafe(no_mangle)]
pub extern "C" fn sq_host_status(
    alloc: Global,
    handle: &mut Handle,
    state: &mut [u8; 6],
    sqlcode: &mut i32,
) -> i32
    ensures answer { result ≡ code (set_answer (outputs.status_behind (leads_to handle.old))) }
    ensures state { state.new ≡ set_value (outputs.state_behind (leads_to handle.old)) state.old }
    ensures sqlcode { sqlcode.new ≡ set_value (outputs.code_behind (leads_to handle.old)) sqlcode.old }
{
    handle.status(alloc, state, sqlcode).code()
}

/// Sets how many values the last call or row gave.
#[unsafe(no_mangle)]
pub extern "C" fn sq_host_outputs(alloc: Global, handle: &mut Handle, count: &mut usize) -> i32
    ensures answer { result ≡ code (set_answer (outputs.count_behind (leads_to handle.old))) }
    ensures count { count.new ≡ set_value (outputs.count_behind (leads_to handle.old)) count.old }
{
    handle.outputs(alloc, count).code()
}

/// Puts the name of a parameter that the last call set into a room.
#[unsafe(no_mangle)]
pub extern "C" fn sq_host_output_name(
    alloc: Global,
    handle: &mut Handle,
    place: usize,
    room: &mut [u8],
    count: &mut usize,
) -> i32
    ensures answer { result ≡ code (put_answer (outputs.name_behind (leads_to handle.old) place) room.old) }
    ensures room { room.new ≡ put_room (outputs.name_behind (leads_to handle.old) place) room.old }
    ensures count { count.new ≡ put_length (outputs.name_behind (leads_to handle.old) place) count.old }
{
    handle.output_name(alloc, place, room, count).code()
}

/// Sets the place of the parameter of this name among those that the last call set.
#[unsafe(no_mangle)]
pub extern "C" fn sq_host_output_place(
    alloc: Global,
    handle: &mut Handle,
    name: &[u8],
    place: &mut usize,
) -> i32 {
    handle.output_place(alloc, name, place).code()
}

/// Sets the kind of a value.
#[unsafe(no_mangle)]
pub extern "C" fn sq_host_output_kind(
    alloc: Global,
    handle: &mut Handle,
    place: usize,
    kind: &mut i32,
) -> i32
    ensures answer { result ≡ code (set_answer (outputs.kind_behind (leads_to handle.old) place)) }
    ensures kind { kind.new ≡ set_value (outputs.kind_behind (leads_to handle.old) place) kind.old }
{
    handle.output_kind(alloc, place, kind).code()
}

/// Sets the digits and the scale of a value that is a number.
#[unsafe(no_mangle)]
pub extern "C" fn sq_host_output_number(
    alloc: Global,
    handle: &mut Handle,
    place: usize,
    unscaled: &mut i64,
    scale: &mut u32,
) -> i32
    ensures answer { result ≡ code (set_answer (outputs.number_behind (leads_to handle.old) place)) }
    ensures unscaled { unscaled.new
        ≡ set_value (outputs.unscaled_behind (leads_to handle.old) place) unscaled.old }
    ensures scale { scale.new ≡ set_value (outputs.scale_behind (leads_to handle.old) place) scale.old }
{
    handle.output_number(alloc, place, unscaled, scale).code()
}

/// Puts the digits of a value that is a number into a room.
#[unsafe(no_mangle)]
pub extern "C" fn sq_host_output_digits(
    alloc: Global,
    handle: &mut Handle,
    place: usize,
    room: &mut [u8],
    count: &mut usize,
) -> i32 {
    handle.output_digits(alloc, place, room, count).code()
}

/// Puts a value that is a text into a room.
#[unsafe(no_mangle)]
pub extern "C" fn sq_host_output_text(
    alloc: Global,
    handle: &mut Handle,
    place: usize,
    room: &mut [u8],
    count: &mut usize,
) -> i32
    ensures answer { result ≡ code (put_answer (outputs.text_behind (leads_to handle.old) place) room.old) }
    ensures room { room.new ≡ put_room (outputs.text_behind (leads_to handle.old) place) room.old }
    ensures count { count.new ≡ put_length (outputs.text_behind (leads_to handle.old) place) count.old }
{
    handle.output_text(alloc, place, room, count).code()
}

/// Begins with the rows of the base table of this user and name.
#[unsafe(no_mangle)]
pub extern "C" fn sq_host_table(
    alloc: Global,
    handle: &mut Handle,
    user: &[u8],
    name: &[u8],
) -> i32 {
    handle.read_table(alloc, user, name).code()
}

/// Goes on to the next row, whose values are then the outputs.
#[unsafe(no_mangle)]
pub extern "C" fn sq_host_next_row(alloc: Global, handle: &mut Handle) -> i32 {
    handle.next_row(alloc).code()
}

/// Frees all that the handle leads to. It then leads to nothing.
#[unsafe(no_mangle)]
pub extern "C" fn sq_host_close(alloc: Global, handle: &mut Handle) -> i32 {
    handle.close(alloc).code()
}
