// Where two texts begin to differ.
ghost use Rattle.std.specs.Prelude.{◌≡◌, None};
ghost use Rattle.replay.specs.Differences.{differs_in};

// The first line in which the texts differ, from 1; none exactly where they are equal.
// A loop goes over the texts once; a search for the place and a count of the line feeds before it would go over them twice.
pub fn first_difference(got: &[u8], wanted: &[u8]) -> Option<usize>
    ensures value { result ≡ differs_in 1 got.now wanted.now }
    ensures exact { (result ≡ None → got.now ≡ wanted.now) × (got.now ≡ wanted.now → result ≡ None) }
{
    let mut line = 1;
    for (have, want) in got.iter().zip(wanted) {
        if have != want {
            return Some(line);
        }
        if *have == b'\n' {
            line += 1;
        }
    }
    (got.len() != wanted.len()).then_some(line)
}
