//! Answers that set what a pointer of the caller's leads to.

ghost use Rattle.std.specs.Prelude.{◌≡◌};
ghost use Rattle.sq_host.specs.Asked.{put_answer, put_length, put_room, set_answer, set_value};
ghost use Rattle.sq_host.specs.Told.{bytes_of};

use sq_exchange::{Answer, put_text};

/// Sets a value if one is answered, else nothing.
pub(crate) fn set<T: Copy>(asked: Result<T, Answer>, place: &mut T) -> Answer
    ensures answer { result ≡ set_answer asked }
    ensures value { place.new ≡ set_value asked place.old }
{
    match asked {
        Ok(value) => {
            *place = value;
            Answer::Done
        }
        Err(answer) => answer,
    }
}

/// Puts words into a room if some are answered, else nothing.
pub(crate) fn put_words(
    words: Result<Vec<u8>, Answer>,
    room: &mut [u8],
    count: &mut usize,
) -> Answer
    ensures answer { result ≡ put_answer (bytes_of words) room.old }
    ensures room { room.new ≡ put_room (bytes_of words) room.old }
    ensures count { count.new ≡ put_length (bytes_of words) count.old }
{
    match words {
        Ok(words) => put_text(words.as_slice(), room, count),
        Err(answer) => answer,
    }
}
