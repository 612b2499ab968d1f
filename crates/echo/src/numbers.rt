// Rows to reply with.
ghost use Rattle.std.specs.Prelude.{◌≡◌, ◌^◌, ◌<◌, length};
ghost use Rattle.std.specs.List.{range_with_len};

// Writes 0, 1, 2 and so on into a row.
pub(crate) fn count_up(row: &mut [u32])
    requires { length row.old < 2 ^ 32 }
    ensures { row.new ≡ range_with_len 0 (length row.old) }
{
    for (k, place) in row.iter_mut().enumerate() {
        *place = k as u32;
    }
}
