//! Whether a word is another one but for one edit of its bytes.

fn has_extra(word: &[u8], other: &[u8]) -> bool {
    match word {
        [] => false,
        [_, rest @ ..] => rest == other,
    }
}

fn has_replaced(word: &[u8], other: &[u8]) -> bool {
    match word {
        [] => false,
        [_, rest @ ..] => match other {
            [] => false,
            [_, others @ ..] => rest == others,
        },
    }
}

fn has_swapped(word: &[u8], other: &[u8]) -> bool {
    match word {
        [] => false,
        [_] => false,
        [a, b, rest @ ..] => match other {
            [] => false,
            [_] => false,
            [c, d, others @ ..] => { *a == *d && *b == *c && rest == others }
        },
    }
}

/// Whether they are the same but for one edit at the front.
fn is_edited(word: &[u8], other: &[u8]) -> bool {
    has_extra(word, other)
        || has_extra(other, word)
        || has_replaced(word, other)
        || has_swapped(word, other)
}

/// Whether one edit makes a word the other one: a byte more, a byte less, another byte, or two
/// neighbours swapped.
pub fn is_one_edit_away(word: &[u8], other: &[u8]) -> bool {
    match word {
        [] => is_edited(word, other),
        [first, rest @ ..] => match other {
            [] => is_edited(word, other),
            [its_first, others @ ..] => {
                is_edited(word, other) || *first == *its_first && is_one_edit_away(rest, others)
            }
        },
    }
}
