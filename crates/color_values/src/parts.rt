ghost use Rattle.std.specs.Prelude.{◌≡◌, ◌+◌, ◌-◌, ◌≤◌, ◌<◌, length, take, drop, not, nat_eq, option_map, IfSome};
ghost use Rattle.std.specs.List.{prefix_len, suffix_len};
ghost use Rattle.color_values.specs.Parts.{is_space, without_spaces_before, without_spaces_behind, trimmed, parts_of};
ghost use Rattle.color_values.specs.Views.{parts_view, parts_with_last, pair_of, before_comma, first_piece};

/// The arguments of a color function, without the spaces around them: three, or three and an opacity.
#[derive(Clone, Copy)]
pub(crate) struct ColorArguments<'a> {
    pub(crate) first: &'a [u8],
    pub(crate) second: &'a [u8],
    pub(crate) third: &'a [u8],
    pub(crate) opacity: Option<&'a [u8]>,
}

/// The arguments between the brackets, with commas between them: `None` where they are not three or four.
pub(crate) fn parts_of(bytes: &[u8]) -> Option<ColorArguments<'_>>
    ensures { option_map parts_view result ≡ parts_of bytes.now }
{
    let Some((first, after_first)) = first_piece(bytes) else {
        return None;
    };
    let Some((second, after_second)) = first_piece(after_first) else {
        return None;
    };
    match first_piece(after_second) {
        Some((third, last)) => parts_with_last(first, second, third, last),
        None => Some(ColorArguments {
            first: trimmed(first),
            second: trimmed(second),
            third: trimmed(after_second),
            opacity: None,
        }),
    }
}

// The arguments whose last is an opacity, unless a comma follows it.
fn parts_with_last<'a>(
    first: &'a [u8],
    second: &'a [u8],
    third: &'a [u8],
    last: &'a [u8],
) -> Option<ColorArguments<'a>>
    ensures { option_map parts_view result ≡ parts_with_last first.now second.now third.now last.now }
{
    if first_piece(last).is_some() {
        return None;
    }
    Some(ColorArguments {
        first: trimmed(first),
        second: trimmed(second),
        third: trimmed(third),
        opacity: Some(trimmed(last)),
    })
}

// What is before the first comma and what is after it: `None` where there is no comma.
#[tactic(auto, unfolding(crate::specs::Views::first_piece))]
fn first_piece(bytes: &[u8]) -> Option<(&[u8], &[u8])>
    ensures { option_map pair_of result ≡ first_piece bytes.now }
{
    let before = before_comma(bytes);
    if before == bytes.len() {
        return None;
    }
    let (piece, rest) = bytes.split_at(before);
    Some((piece, &rest[1..]))
}

// How many bytes are before the first comma.
fn before_comma(bytes: &[u8]) -> usize
    ensures value { result ≡ before_comma bytes.now }
    ensures within { result ≤ length bytes.now }
{
    bytes.iter().take_while(|byte| **byte != b',').count()
}

/// The bytes without the spaces (U+0020) before and after them.
#[tactic(auto, unfolding(crate::specs::Parts::trimmed))]
pub(crate) fn trimmed(bytes: &[u8]) -> &[u8]
    ensures { result.now ≡ trimmed bytes.now }
{
    without_spaces_behind(without_spaces_before(bytes))
}

fn without_spaces_before(bytes: &[u8]) -> &[u8]
    ensures { result.now ≡ without_spaces_before bytes.now }
{
    bytes.split_at(count_spaces_before(bytes)).1
}

fn without_spaces_behind(bytes: &[u8]) -> &[u8]
    ensures { result.now ≡ without_spaces_behind bytes.now }
{
    let spaces = count_spaces_behind(bytes);
    bytes.split_at(bytes.len() - spaces).0
}

fn count_spaces_before(bytes: &[u8]) -> usize
    ensures value { result ≡ prefix_len is_space bytes.now }
    ensures within { result ≤ length bytes.now }
{
    bytes.iter().take_while(|byte| **byte == b' ').count()
}

fn count_spaces_behind(bytes: &[u8]) -> usize
    ensures { result ≡ suffix_len is_space bytes.now }
{
    bytes.iter().rev().take_while(|byte| **byte == b' ').count()
}
