// What the bytes after a template say.
ghost use Rattle.std.specs.Prelude.{◌≡◌, ◌*◌, length};
ghost use Rattle.sender.specs.Input.{cells_from, count_of, Fitting};

// Every cell that the bytes say, in their order.
pub(crate) fn decode(text: &[u8], grid: &mut [i32])
    requires { length text.now ≡ 4 * length grid.old }
    ensures { grid.new ≡ cells_from text.now }
{
    for (i, cell) in grid.iter_mut().enumerate() {
        *cell = words::cell_at(text, 4 * i);
    }
}

// Cells that are no whole fours, or too many, are none.
pub(crate) fn count_cells(text: &[u8]) -> Option<usize>
    ensures { (result ≡ count_of text.now) × Fitting text.now result }
{
    if text.len() > 60000 || text.len() % 4 != 0 {
        return None;
    }
    Some(text.len() / 4)
}
