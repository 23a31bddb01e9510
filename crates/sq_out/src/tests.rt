//! Outputs over writers of std, tried.

use crate::{Out, OutOf, write_whole};
use std::test::Fail;

#[test]
fn writes_to_a_vec(rt: HostRuntime) -> Result<(), Fail> {
    let mut bytes = Vec::new(rt.alloc());
    let mut out = OutOf::new(&mut bytes);
    assert_eq!(rt; out.write(b"  1 -2\n"), Ok(7));
    assert_eq!(rt; out.write(b""), Ok(0));
    assert_eq!(rt; write_whole(&mut out, b"M.P 00000 0\n"), Ok(()));
    assert_eq!(rt; bytes.as_slice(), b"  1 -2\nM.P 00000 0\n".as_slice());
    Ok(())
}
