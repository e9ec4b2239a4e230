// A console's ring becomes text.
use crate::text::drain;
use neph_base::Piece;
use neph_ring::{WordPage, put_out};
use std::test::Fail;

#[test]
fn bytes_that_wait_become_text(rt: HostRuntime) -> Result<(), Fail> {
    let mut page = WordPage::new(rt.alloc())?;
    let mut text = Vec::new(rt.alloc());
    let hi = Piece::new(b"hi").ok_or("piece")?;
    assert!(rt; put_out(&mut page, &hi));
    assert_eq!(rt; drain(&mut page, &mut text)?, 2);
    assert_eq!(rt; drain(&mut page, &mut text)?, 0);
    assert_eq!(rt; text.as_slice(), b"hi".as_slice());
    Ok(())
}
