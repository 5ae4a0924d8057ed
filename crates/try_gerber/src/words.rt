// The words of the command line that are lists of numbers.
ghost use Rattle.std.specs.Prelude.{◌≤◌, length, IfSome};
ghost use Rattle.io.specs.Counts.{IsPrefixLen};

// The index of the next comma, or the text's length.
fn comma_from(text: &[u8], at: usize) -> usize
    requires { at ≤ length text.now }
    ensures lower_bound { at ≤ result }
    ensures upper_bound { result ≤ length text.now }
{
    (at..text.len())
        .find(|i| text[*i] == b',')
        .unwrap_or(text.len())
}

// How many numbers a text has, with commas between, and they go to the start of the list; none where it is `-`.
// Nothing where it is no such text, or the list is too short.
pub fn read_list(text: &[u8], list: &mut [u64]) -> Option<usize>
    ensures { IfSome result (λ n. IsPrefixLen n list.new) }
{
    if text == b"-".as_slice() {
        return Some(0);
    }
    let mut at = 0;
    for count in 0..list.len() {
        let end = comma_from(text, at);
        list[count] = inputs::read_number(&text[at..end]).ok()?;
        if end == text.len() {
            return Some(count + 1);
        }
        at = end + 1;
    }
    None
}
