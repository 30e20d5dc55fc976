#![tactic(auto)]
// The calls of the desk program in C: include/desk.h names the same types. Each is thin over a proved function; desk_c gives them to C.
ghost use Rattle.std.specs.Prelude.{◌≡◌, length};
ghost use Rattle.number.specs.Integer.{integer};
ghost use Rattle.number.specs.Real.{real};
ghost use Rattle.label.specs.Label.{origin_of, family_origin, name_length};
ghost use Rattle.sheet.specs.RecordA.{record_a, record_of, checked_kind, checked_byte};
ghost use Rattle.session.specs.Session.{opened};
ghost use Rattle.delivery.specs.Deliver.{answer_kind, answer_place};
ghost use Rattle.lines.specs.Lines.{Given};
ghost use Rattle.slip.specs.Slip.{handed};
ghost use Rattle.ledger.specs.Ledger.{open_kind, opened_with, delivered_to, grid_left, numbers_left, sound_said, complete_said, report_said};
ghost use Rattle.courier.specs.Courier.{ran_to, numbers_run, grid_run, beside_run};
ghost use Rattle.written.specs.Sending.{block_objection, block_after, count_of, sent_by, sent_told, sent_kind, sheet_sent_objection, sheet_after};
ghost use Rattle.desk.specs.Calls.{one_if, columns_checked, rows_checked, sent_beside};

use written::Refused;

// 0, or document 01's number of the refusal.
pub fn dem_integer_kind(field: &[u8]) -> u32
    ensures { result ≡ (integer field.now).kind }
{
    number::read_integer(field).map_or_else(|u| u.kind.number(), |_| 0)
}

// 0 where the field is refused.
pub fn dem_integer_value(field: &[u8]) -> i64
    ensures { result ≡ (integer field.now).value }
{
    number::read_integer(field).unwrap_or(0)
}

// The byte of a field of wrong form, counted from 1, that first makes its form impossible; 0 for every other kind.
pub fn dem_integer_byte(field: &[u8]) -> u32
    ensures { result ≡ (integer field.now).byte }
{
    number::read_integer(field).map_or_else(|u| u32::from(u.byte), |_| 0)
}

// 0, or document 01's number of the refusal.
pub fn dem_real_kind(field: &[u8]) -> u32
    ensures { result ≡ (real field.now).kind }
{
    number::read_real(field).map_or_else(|u| u.kind.number(), |_| 0)
}

// In billionths; 0 where the field is refused.
pub fn dem_real_value(field: &[u8]) -> i64
    ensures { result ≡ (real field.now).value }
{
    number::read_real(field).unwrap_or(0)
}

// As `dem_integer_byte`.
pub fn dem_real_byte(field: &[u8]) -> u32
    ensures { result ≡ (real field.now).byte }
{
    number::read_real(field).map_or_else(|u| u32::from(u.byte), |_| 0)
}

// 0, or the number of the first rule of a family's record A that the block breaks; 2 for a family that there is none of.
pub fn dem_family_record_a_kind(family: u32, block: &[u8]) -> u32
    ensures { result ≡ checked_kind (record_of family block.now) }
{
    sheet::check_family(u64::from(family), block).map_or_else(|b| b.kind.number(), |_| 0)
}

// The byte where that rule stands, counted from 1; 0 where none is broken, and for kinds 1 and 2.
pub fn dem_family_record_a_byte(family: u32, block: &[u8]) -> u32
    ensures { result ≡ checked_byte (record_of family block.now) }
{
    sheet::check_family(u64::from(family), block).map_or_else(|b| b.byte, |_| 0)
}

// The same of a USGS sheet.
pub fn dem_record_a_kind(block: &[u8]) -> u32
    ensures { result ≡ checked_kind (record_a block.now) }
{
    dem_family_record_a_kind(0, block)
}

pub fn dem_record_a_byte(block: &[u8]) -> u32
    ensures { result ≡ checked_byte (record_a block.now) }
{
    dem_family_record_a_byte(0, block)
}

// Its number among the family's origins, or 0 for any other text, length or family.
pub fn dem_family_origin(family: u32, block: &[u8]) -> u32
    ensures { result ≡ family_origin family block.now }
{
    label::family_origin(u64::from(family), block)
}

// 1 to 6, or 0 for any other text or length.
pub fn dem_origin(block: &[u8]) -> u32
    ensures { result ≡ origin_of block.now }
{
    label::origin(block)
}

// How many bytes of the block, from its first, are the sheet's name.
pub fn dem_name_length(block: &[u8]) -> usize
    ensures { result ≡ name_length block.now }
{
    label::name(block).len()
}

// A fresh session for sheets of a family, whatever its number: 0, or 12 and nothing changed where there are too few numbers.
pub fn dem_open(family: u32, session: &mut [i64]) -> u32
    ensures { (result ≡ open_kind session.old) × (session.new ≡ opened_with (opened family) session.old) }
{
    ledger::open(family, session)
}

// One delivery: 0 taken, 255 held, else document 01's kind; beside it block and byte. Only a taken block changes session and grid.
pub fn dem_deliver(
    session: &mut [i64],
    number: u32,
    block: &[u8],
    grid: &mut [i32],
    answer: &mut [u64],
) -> u32
    ensures { (result ≡ answer_kind (delivered_to session.old number block.now grid.old).answer) × ((session.new ≡ numbers_left session.old number block.now grid.old) × ((grid.new ≡ grid_left session.old number block.now grid.old) × (answer.new ≡ handed (answer_place (delivered_to session.old number block.now grid.old).answer) answer.old))) }
{
    ledger::deliver(session, number, block, grid, answer)
}

// Several blocks in one call: as single deliveries in order, up to the first refusal; beside block and byte how many were taken or held.
pub fn dem_deliver_run(
    session: &mut [i64],
    number: u32,
    blocks: &[u8],
    grid: &mut [i32],
    answer: &mut [u64],
) -> u32
    ensures { (result ≡ answer_kind (ran_to session.old number blocks.now grid.old).answer) × ((session.new ≡ numbers_run session.old number blocks.now grid.old) × ((grid.new ≡ grid_run session.old number blocks.now grid.old) × (answer.new ≡ handed (beside_run (ran_to session.old number blocks.now grid.old).answer (ran_to session.old number blocks.now grid.old).count) answer.old))) }
{
    courier::deliver_run(session, number, blocks, grid, answer)
}

pub fn dem_is_sound(session: &[i64]) -> u32
    ensures { result ≡ one_if (sound_said session.now) }
{
    u32::from(ledger::is_sound(session))
}

pub fn dem_is_complete(session: &[i64]) -> u32
    ensures { result ≡ one_if (complete_said session.now) }
{
    u32::from(ledger::is_complete(session))
}

// The columns and rows of a record A's sheet, so that a caller knows how large a grid to lend; 0 where it is refused.
pub fn dem_family_columns(family: u32, block: &[u8]) -> u64
    ensures { result ≡ columns_checked (record_of family block.now) }
{
    sheet::check_family(u64::from(family), block).map_or(0, frame::columns)
}

pub fn dem_family_rows(family: u32, block: &[u8]) -> u64
    ensures { result ≡ rows_checked (record_of family block.now) }
{
    sheet::check_family(u64::from(family), block).map_or(0, frame::rows)
}

pub fn dem_columns(block: &[u8]) -> u64
    ensures { result ≡ columns_checked (record_a block.now) }
{
    dem_family_columns(0, block)
}

pub fn dem_rows(block: &[u8]) -> u64
    ensures { result ≡ rows_checked (record_a block.now) }
{
    dem_family_rows(0, block)
}

// How many blocks a template and grid have; 0 where they are refused.
pub fn dem_block_count(template: &[u8], grid: &[i32]) -> u64
    ensures { result ≡ count_of template.now grid.now }
{
    send::block_count(template, grid)
}

// The writer's answer: 0 written, else document 01's kind; beside it its one number.
fn tell(sent: Result<(), Refused>, answer: &mut [u64]) -> u32
    ensures { (result ≡ sent_kind (sent_told sent)) × (answer.new ≡ handed (sent_beside (sent_told sent)) answer.old) }
{
    match sent {
        Ok(()) => {
            slip::hand(&[0], answer);
            0
        }
        Err(refused) => {
            slip::hand(&[refused.number], answer);
            refused.kind.number()
        }
    }
}

pub fn dem_write_block(
    template: &[u8],
    grid: &[i32],
    number: u32,
    block: &mut [u8],
    answer: &mut [u64],
) -> u32
    ensures { (result ≡ sent_kind (sent_by (block_objection template.now grid.now number (length block.old)))) × ((block.new ≡ block_after template.now grid.now number block.old) × (answer.new ≡ handed (sent_beside (sent_by (block_objection template.now grid.now number (length block.old)))) answer.old)) }
{
    let sent = send::write_block(template, grid, u64::from(number), block);
    tell(sent, answer)
}

// The whole sheet into `out`, which has exactly block count × 1,024 bytes; 1 with 0 else, after all other refusals.
pub fn dem_write_sheet(template: &[u8], grid: &[i32], out: &mut [u8], answer: &mut [u64]) -> u32
    ensures { (result ≡ sent_kind (sent_by (sheet_sent_objection template.now grid.now (length out.old)))) × ((out.new ≡ sheet_after template.now grid.now out.old) × (answer.new ≡ handed (sent_beside (sent_by (sheet_sent_objection template.now grid.now (length out.old)))) answer.old)) }
{
    let sent = send::write_sheet(template, grid, out);
    tell(sent, answer)
}

// The lister's four lines of a complete session; 0, and nothing changed, for any other or where they do not fit.
pub fn dem_report(session: &[i64], out: &mut [u8]) -> usize
    ensures { Given (report_said session.now) out.old out.new result }
{
    ledger::report(session, out)
}
