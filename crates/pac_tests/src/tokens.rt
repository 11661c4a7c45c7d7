// The tokens of a line.
use pac_tokens::{Spanned, tokens};

const LINE: &[u8] = b"call Add(1, - 5, \"a\\\"b\\\\\", true) <= < = == .. ... # behind";

const PLACES: &[usize] = &[
    0, 5, 8, 9, 10, 12, 14, 15, 17, 25, 27, 31, 33, 36, 38, 40, 43, 46, 48,
];

fn stand_there(found: &[Spanned]) -> bool {
    let mut rest = PLACES;
    for token in found {
        match rest {
            [at, after @ ..] if token.at == *at => rest = after,
            _ => return false,
        }
    }
    rest.is_empty()
}

#[test]
fn the_tokens_of_a_line_stand_at_their_offsets(rt: HostRuntime) {
    let right = match tokens(rt.alloc(), LINE) {
        Ok(found) => stand_there(found.as_slice()),
        Err(_) => false,
    };
    assert!(rt; right);
}
