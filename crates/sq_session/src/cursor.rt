//! Cursors, and the place that a FETCH reaches (ISO/IEC 9075:1992, 4.21 and 13.3).

ghost use Rattle.std.specs.Prelude.{◌≡◌, ◌≤◌, ◌<◌, ◌^◌, IfSome, if◌then◌else◌, is_some, length, MatchOption, None, Ok, Some, option_copied};
ghost use Rattle.sq_meaning.specs.Cursor.{bounded, row_at as row_of};
ghost use Rattle.sq_store.specs.Content.{table_at};
ghost use Rattle.sq_store.specs.Meter.{counted};
ghost use Rattle.sq_session.specs.State.{next_number, number_on};
ghost use Rattle.sq_session.specs.Fetch.{HasNumber, MeansPlace, number_of, place_reached, place_wanted, row_on};

use crate::walk::WalkingCursor;
use sq_bound::{Distance, FetchOrientation};
use sq_items::Items;
use sq_store::{Meter, Store};
use sq_value::{Row, Value};

/// A cursor: closed, or open over what OPEN fixed.
#[derive(Drop)]
pub enum CursorState {
    Closed,
    /// An updatable cursor: the numbers of its rows.
    Numbers(NumbersCursor),
    /// An updatable cursor whose conditions answer no status: how far it has walked.
    Walking(WalkingCursor),
    /// Any other cursor: its rows.
    Rows(RowsCursor),
}

/// A cursor over the rows of a base table with these numbers.
#[derive(Drop)]
pub struct NumbersCursor {
    /// The place of the base table.
    pub table: usize,
    pub numbers: Items<u64>,
    /// How many of the numbers are passed.
    pub passed: usize,
    /// The number of the row that the cursor is on.
    pub on: Option<u64>,
}

/// A cursor over rows.
#[derive(Drop)]
pub struct RowsCursor {
    pub rows: Items<Row>,
    /// The place of the cursor: 0 before the first row, n on the nth, and one more than the count of rows after the
    /// last.
    pub place: usize,
}

/// The number of the row that an updatable cursor is on.
pub fn number_on(cursor: &CursorState) -> Option<u64>
    ensures { result ≡ number_on cursor.now }
{
    match cursor {
        CursorState::Numbers(numbers) => numbers.on,
        CursorState::Walking(walk) => walk.on,
        CursorState::Closed | CursorState::Rows(_) => None,
    }
}

/// The place that a fetch orientation reaches, from `place` among `count` rows.
pub(crate) fn place_reached(
    orientation: FetchOrientation,
    values: &[Value],
    count: usize,
    place: usize,
) -> usize
    requires rows { count < 2 ^ 63 }
    requires orientation { MeansPlace values.now orientation }
    ensures { place_reached values.now orientation count place ≡ Ok result }
{
    bound_place(count, place_wanted(orientation, values, count, place))
}

/// The place that a fetch orientation names, which may lie outside the rows.
fn place_wanted(orientation: FetchOrientation, values: &[Value], count: usize, place: usize) -> i128
    requires { MeansPlace values.now orientation }
    ensures { place_wanted values.now orientation count place ≡ Ok result }
{
    match orientation {
        FetchOrientation::Next => place as i128 + 1,
        FetchOrientation::Prior => place as i128 - 1,
        FetchOrientation::First => 1,
        FetchOrientation::Last => count as i128,
        FetchOrientation::Absolute(distance) => {
            let number = number_of(distance, values) as i128;
            if number >= 0 {
                number
            } else {
                count as i128 + 1 + number
            }
        }
        FetchOrientation::Relative(distance) => place as i128 + number_of(distance, values) as i128,
    }
}

/// The place, or the nearest place that there is.
fn bound_place(count: usize, wanted: i128) -> usize
    requires { count < 2 ^ 63 }
    ensures { result ≡ bounded count wanted }
{
    if wanted < 0 {
        0
    } else if wanted > count as i128 {
        count + 1
    } else {
        wanted as usize
    }
}

/// The number of an orientation.
fn number_of(distance: Distance, values: &[Value]) -> i64
    requires { HasNumber values.now distance }
    ensures { number_of values.now distance ≡ Ok result }
{
    match distance {
        Distance::Number(number) => number,
        Distance::Parameter(parameter) => match values.get(parameter) {
            Some(Value::Num(number)) => number.unscaled(),
            Some(Value::Null) | Some(Value::Chars(_)) | None => unreachable!(),
        },
    }
}

/// The row at a place, which counts from 1.
pub fn row_at(rows: &[Row], place: usize) -> Option<&Row>
    ensures { option_copied result ≡ row_of rows.now place }
{
    if place == 0 {
        return None;
    }
    rows.get(place - 1)
}

/// The number and the row that a FETCH reaches, and how many numbers are passed then.
#[derive(Clone, Copy)]
pub(crate) struct Reached<'a> {
    pub(crate) passed: usize,
    pub(crate) number: u64,
    pub(crate) row: &'a Row,
}

/// The next number under which there is a row now.
pub(crate) fn next_there<'a, S: Store>(
    store: &'a S,
    cursor: &NumbersCursor,
    meter: &mut Meter,
) -> Option<Reached<'a>>
    requires there { cursor.now.table < length (S.content_now store.now) }
    requires passed { cursor.now.passed ≤ length cursor.now.numbers }
    ensures row { IfSome result
        (λ r. row_on (table_at (S.content_now store.now) cursor.now.table) (Some r.number) ≡ Some r.row.now) }
    ensures next { let next = next_number (table_at (S.content_now store.now) cursor.now.table) cursor.now in
        MatchOption result ((next.on ≡ None) × (next.passed ≡ length cursor.now.numbers))
        (λ r. (next.on ≡ Some r.number)
        × (next.passed ≡ r.passed)) }
    ensures metered { meter.new ≡ (if is_some result then counted meter.old else meter.old) }
{
    let left = &cursor.numbers.as_slice()[cursor.passed..];
    for (place, number) in left.iter().enumerate() {
        if let Some(row) = store.row(cursor.table, *number, meter) {
            return Some(Reached {
                passed: cursor.passed + place + 1,
                number: *number,
                row,
            });
        }
    }
    None
}
