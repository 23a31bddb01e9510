//! Rooms: memory of the caller's, in which a text is put.

ghost use Rattle.std.specs.Prelude.{◌≡◌, length};
ghost use Rattle.sq_exchange.specs.Room as spec;

use crate::answer::Answer;

/// Puts a text into a room, with a zero after it, and sets the length of the text. If there is no room for
/// both, the room stays as it is.
pub fn put_text(text: &[u8], room: &mut [u8], count: &mut usize) -> Answer
    ensures answer { result ≡ spec.room_answer text.now room.old }
    ensures room { room.new ≡ spec.with_text text.now room.old }
    ensures count { count.new ≡ length text.now }
{
    *count = text.len();
    if room.len() <= text.len() {
        return Answer::NoRoom;
    }
    room[..text.len()].copy_from_slice(text);
    room[text.len()] = 0;
    Answer::Done
}
