//! Lines of words by worked values: that memory suffices, and how they look.

use leg_print_words::{push_end, push_first, push_line_feed, push_number, push_word, push_words};
use std::test::Fail;

#[test]
fn writes_a_statement(rt: HostRuntime) -> Result<(), Fail> {
    let mut text = Vec::new(rt.alloc());
    push_first(&mut text, b"ROW")?;
    push_word(&mut text, b"core")?;
    push_number(&mut text, -20)?;
    push_number(&mut text, 0)?;
    push_words(&mut text, &[b"DO".as_slice(), b"7", b"BY", b"1"])?;
    push_end(&mut text)?;
    push_words(&mut text, &[])?;
    push_first(&mut text, b"END")?;
    push_word(&mut text, b"DESIGN")?;
    push_line_feed(&mut text)?;
    assert_eq!(rt;
        text.as_slice(),
        b"ROW core -20 0 DO 7 BY 1 ;\nEND DESIGN\n".as_slice()
    );
    Ok(())
}

#[test]
fn writes_each_number_whole(rt: HostRuntime) -> Result<(), Fail> {
    let mut text = Vec::new(rt.alloc());
    push_number(&mut text, i64::MIN)?;
    push_number(&mut text, i64::MAX)?;
    assert_eq!(rt;
        text.as_slice(),
        b" -9223372036854775808 9223372036854775807".as_slice()
    );
    Ok(())
}
