//! Inputs that fail, and inputs that give little at a time.

use leg_app::{InputFault, read_all};
use std::io;
use std::io::{ErrorKind, Read};
use std::test::Fail;

/// Gives this many blanks at each call, and fails at the call of this number.
#[derive(Drop)]
struct Blanks {
    count: usize,
    fails_at: usize,
    calls: usize,
}

impl Read for Blanks {
    fn read(&mut self, buf: &mut [u8]) -> io::Result<usize> {
        self.calls = self.calls.saturating_add(1);
        if self.calls == self.fails_at {
            return Err(io::Error::from(ErrorKind::Other));
        }
        let count = self.count.min(buf.len());
        buf[..count].fill(b' ');
        Ok(count)
    }
}

#[test]
fn an_error_ends_an_input(rt: HostRuntime) {
    for fails_at in [1, 2, 3] {
        let mut reader = Blanks {
            count: 9,
            fails_at,
            calls: 0,
        };
        let found = read_all(rt.alloc(), &mut reader, 100);
        assert!(rt; matches!(found, Err(InputFault::Unreadable(_))));
        assert_eq!(rt; reader.calls, fails_at);
    }
}

#[test]
fn an_input_without_an_end_is_read_in_few_calls(rt: HostRuntime) -> Result<(), Fail> {
    for limit in [0, 1, 2, 100, 8192, 8193, 20_000] {
        let mut reader = Blanks {
            count: 1,
            fails_at: 0,
            calls: 0,
        };
        let Ok(bytes) = read_all(rt.alloc(), &mut reader, limit) else {
            return Err(Fail::new("not read"));
        };
        assert_eq!(rt; bytes.len(), limit);
        assert!(rt; reader.calls <= limit.saturating_add(1));
    }
    Ok(())
}
