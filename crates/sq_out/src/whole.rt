//! Writing a whole text to an output.

ghost use Rattle.std.specs.Prelude.{◌≡◌, ◌≤◌, ◌<◌, false, true, length, take, IfErr, OnErr, OnOk};
ghost use Rattle.std.specs.Io.KnownBytes.{Appends};

use crate::out::Out;

/// Writes all bytes. An error says how many of them were taken.
///
/// It goes on only while bytes are taken.
#[tactic(auto, using(crate::proofs::Bytes::appends_further, std::proofs::lemmas::List::take_rest))]
pub fn write_whole<W: Out>(out: &mut W, bytes: &[u8]) -> Result<(), usize>
    requires { W.failed out.old ≡ false }

    ensures ok { OnOk result (Appends (W.taken out.old) (W.taken out.new) bytes.now) }
    ensures still { OnOk result (W.failed out.new ≡ false) }

    // On a fault fewer bytes were taken than given, and they are the first ones.
    ensures within { IfErr result (λ count. count < length bytes.now) }
    ensures fault { IfErr result
        (λ count. Appends (W.taken out.old) (W.taken out.new) (take count bytes.now)) }
    ensures failed { OnErr result (W.failed out.new ≡ true) }
{
    let mut taken = 0;
    while taken < bytes.len() {
        match out.write(&bytes[taken..]) {
            Ok(0) | Err(_) => return Err(taken),
            Ok(count) => taken += count,
        }
    }
    Ok(())
}
