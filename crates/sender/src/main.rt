#![tactic(auto)]
// Sends a sheet made of a template and cells: docs/MANUAL.md, "Sending a sheet". Input, the writer's calls, output.
mod input;
mod output;

ghost use Rattle.std.specs.Prelude.{◌≡◌, ◌*◌, length};
ghost use Rattle.written.specs.Sending.{sheet_after};
ghost use Rattle.sender.specs.Input.{cells_from, bytes_of};

// The open file that a program reads.
const STDIN_FILENO: i32 = 0;

// The most bytes of a sheet of 15,000 cells: block 0 and one for each of 2,048 columns. Where a column needs more than one, it has more than
// 146 rows, and the columns are so few that the blocks are fewer in all.
const MOST: usize = 2098176;

// The bytes of so many blocks. More than 2,049 there cannot be (proof Room); they would get none, and the writer would refuse the buffer.
fn bytes_of(count: u64) -> usize
    ensures { result ≡ bytes_of count }
{
    if count > 2049 {
        return 0;
    }
    1024 * count as usize
}

// The sheet is judged whole before a byte of it is written out.
fn send_into(template: &[u8], grid: &[i32], out: &mut [u8])
    ensures { out.new ≡ sheet_after template.now grid.now out.old }
{
    match send::write_sheet(template, grid, out) {
        Ok(()) => output::write_bytes(out),
        Err(refused) => {
            let kind = refused.kind.number();
            let number = refused.number;
            output::write_line(format_args!("refused {kind} {number}"));
        }
    }
}

// As much of the room as the sheet has bytes, which is never more than all of it.
fn send_from(template: &[u8], grid: &[i32], room: &mut [u8]) {
    let bytes = bytes_of(send::block_count(template, grid));
    if bytes <= room.len() {
        send_into(template, grid, &mut room[..bytes]);
    }
}

// Kept: lent as an array first, since the prover takes so long an array as a slice only behind a reference.
fn send_room(template: &[u8], grid: &[i32], room: &mut [u8; MOST]) {
    send_from(template, grid, room);
}

fn send_sheet(template: &[u8], grid: &[i32]) {
    let mut room = [0u8; MOST];
    send_room(template, grid, &mut room);
}

// The cells that are sent are those that the text says.
fn send_cells(template: &[u8], text: &[u8], grid: &mut [i32])
    requires { length text.now ≡ 4 * length grid.old }
    ensures { grid.new ≡ cells_from text.now }
{
    input::decode(text, grid);
    send_sheet(template, grid);
}

// The input's two parts, as far as they could be read.
fn run(template: &[u8], text: &[u8]) {
    let Some(cells) = input::count_cells(text) else {
        output::write_bytes(b"bad input\n");
        return;
    };
    let mut grid = [0i32; 15000];
    send_cells(template, text, &mut grid[..cells]);
}

// Four bytes more than the most cells take are read: that shows an input of too many.
fn main() {
    let mut template = [0u8; 1024];
    let got = io::read_full(STDIN_FILENO, &mut template);
    let mut text = [0u8; 60004];
    let bytes = io::read_full(STDIN_FILENO, &mut text);
    run(&template[..got], &text[..bytes]);
}
