#![tactic(auto)]
// The static library for C: each call of include/desk.h is desk's own, by the same name and with the same clauses.
ghost use Rattle.std.specs.Prelude.{◌≡◌, length};
ghost use Rattle.number.specs.Integer.{integer};
ghost use Rattle.number.specs.Real.{real};
ghost use Rattle.label.specs.Label.{origin_of, family_origin, name_length};
ghost use Rattle.sheet.specs.RecordA.{record_a, record_of, checked_kind, checked_byte};
ghost use Rattle.session.specs.Session.{opened};
ghost use Rattle.delivery.specs.Deliver.{answer_kind, answer_place};
ghost use Rattle.lines.specs.Lines.{Given};
ghost use Rattle.slip.specs.Slip.{handed};
ghost use Rattle.ledger.specs.Ledger.{open_kind, opened_with, delivered_to, grid_left, numbers_left, sound_said, complete_said, report_said};
ghost use Rattle.courier.specs.Courier.{ran_to, numbers_run, grid_run, beside_run};
ghost use Rattle.written.specs.Sending.{block_objection, block_after, count_of, sent_by, sent_kind, sheet_sent_objection, sheet_after};
ghost use Rattle.desk.specs.Calls.{one_if, columns_checked, rows_checked, sent_beside};

#[unsafe(no_mangle)]
pub extern "C" fn dem_integer_kind(field: &[u8]) -> u32
    ensures { result ≡ (integer field.now).kind }
{
    desk::dem_integer_kind(field)
}

#[unsafe(no_mangle)]
pub extern "C" fn dem_integer_value(field: &[u8]) -> i64
    ensures { result ≡ (integer field.now).value }
{
    desk::dem_integer_value(field)
}

#[unsafe(no_mangle)]
pub extern "C" fn dem_integer_byte(field: &[u8]) -> u32
    ensures { result ≡ (integer field.now).byte }
{
    desk::dem_integer_byte(field)
}

#[unsafe(no_mangle)]
pub extern "C" fn dem_real_kind(field: &[u8]) -> u32
    ensures { result ≡ (real field.now).kind }
{
    desk::dem_real_kind(field)
}

#[unsafe(no_mangle)]
pub extern "C" fn dem_real_value(field: &[u8]) -> i64
    ensures { result ≡ (real field.now).value }
{
    desk::dem_real_value(field)
}

#[unsafe(no_mangle)]
pub extern "C" fn dem_real_byte(field: &[u8]) -> u32
    ensures { result ≡ (real field.now).byte }
{
    desk::dem_real_byte(field)
}

#[unsafe(no_mangle)]
pub extern "C" fn dem_family_record_a_kind(family: u32, block: &[u8]) -> u32
    ensures { result ≡ checked_kind (record_of family block.now) }
{
    desk::dem_family_record_a_kind(family, block)
}

#[unsafe(no_mangle)]
pub extern "C" fn dem_family_record_a_byte(family: u32, block: &[u8]) -> u32
    ensures { result ≡ checked_byte (record_of family block.now) }
{
    desk::dem_family_record_a_byte(family, block)
}

#[unsafe(no_mangle)]
pub extern "C" fn dem_record_a_kind(block: &[u8]) -> u32
    ensures { result ≡ checked_kind (record_a block.now) }
{
    desk::dem_record_a_kind(block)
}

#[unsafe(no_mangle)]
pub extern "C" fn dem_record_a_byte(block: &[u8]) -> u32
    ensures { result ≡ checked_byte (record_a block.now) }
{
    desk::dem_record_a_byte(block)
}

#[unsafe(no_mangle)]
pub extern "C" fn dem_family_origin(family: u32, block: &[u8]) -> u32
    ensures { result ≡ family_origin family block.now }
{
    desk::dem_family_origin(family, block)
}

#[unsafe(no_mangle)]
pub extern "C" fn dem_origin(block: &[u8]) -> u32
    ensures { result ≡ origin_of block.now }
{
    desk::dem_origin(block)
}

#[unsafe(no_mangle)]
pub extern "C" fn dem_name_length(block: &[u8]) -> usize
    ensures { result ≡ name_length block.now }
{
    desk::dem_name_length(block)
}

#[unsafe(no_mangle)]
pub extern "C" fn dem_open(family: u32, session: &mut [i64]) -> u32
    ensures { (result ≡ open_kind session.old) × (session.new ≡ opened_with (opened family) session.old) }
{
    desk::dem_open(family, session)
}

#[unsafe(no_mangle)]
pub extern "C" fn dem_deliver(
    session: &mut [i64],
    number: u32,
    block: &[u8],
    grid: &mut [i32],
    answer: &mut [u64],
) -> u32
    ensures { (result ≡ answer_kind (delivered_to session.old number block.now grid.old).answer) × ((session.new ≡ numbers_left session.old number block.now grid.old) × ((grid.new ≡ grid_left session.old number block.now grid.old) × (answer.new ≡ handed (answer_place (delivered_to session.old number block.now grid.old).answer) answer.old))) }
{
    desk::dem_deliver(session, number, block, grid, answer)
}

#[unsafe(no_mangle)]
pub extern "C" fn dem_deliver_run(
    session: &mut [i64],
    number: u32,
    blocks: &[u8],
    grid: &mut [i32],
    answer: &mut [u64],
) -> u32
    ensures { (result ≡ answer_kind (ran_to session.old number blocks.now grid.old).answer) × ((session.new ≡ numbers_run session.old number blocks.now grid.old) × ((grid.new ≡ grid_run session.old number blocks.now grid.old) × (answer.new ≡ handed (beside_run (ran_to session.old number blocks.now grid.old).answer (ran_to session.old number blocks.now grid.old).count) answer.old))) }
{
    desk::dem_deliver_run(session, number, blocks, grid, answer)
}

#[unsafe(no_mangle)]
pub extern "C" fn dem_is_sound(session: &[i64]) -> u32
    ensures { result ≡ one_if (sound_said session.now) }
{
    desk::dem_is_sound(session)
}

#[unsafe(no_mangle)]
pub extern "C" fn dem_is_complete(session: &[i64]) -> u32
    ensures { result ≡ one_if (complete_said session.now) }
{
    desk::dem_is_complete(session)
}

#[unsafe(no_mangle)]
pub extern "C" fn dem_family_columns(family: u32, block: &[u8]) -> u64
    ensures { result ≡ columns_checked (record_of family block.now) }
{
    desk::dem_family_columns(family, block)
}

#[unsafe(no_mangle)]
pub extern "C" fn dem_family_rows(family: u32, block: &[u8]) -> u64
    ensures { result ≡ rows_checked (record_of family block.now) }
{
    desk::dem_family_rows(family, block)
}

#[unsafe(no_mangle)]
pub extern "C" fn dem_columns(block: &[u8]) -> u64
    ensures { result ≡ columns_checked (record_a block.now) }
{
    desk::dem_columns(block)
}

#[unsafe(no_mangle)]
pub extern "C" fn dem_rows(block: &[u8]) -> u64
    ensures { result ≡ rows_checked (record_a block.now) }
{
    desk::dem_rows(block)
}

#[unsafe(no_mangle)]
pub extern "C" fn dem_block_count(template: &[u8], grid: &[i32]) -> u64
    ensures { result ≡ count_of template.now grid.now }
{
    desk::dem_block_count(template, grid)
}

#[unsafe(no_mangle)]
pub extern "C" fn dem_write_block(
    template: &[u8],
    grid: &[i32],
    number: u32,
    block: &mut [u8],
    answer: &mut [u64],
) -> u32
    ensures { (result ≡ sent_kind (sent_by (block_objection template.now grid.now number (length block.old)))) × ((block.new ≡ block_after template.now grid.now number block.old) × (answer.new ≡ handed (sent_beside (sent_by (block_objection template.now grid.now number (length block.old)))) answer.old)) }
{
    desk::dem_write_block(template, grid, number, block, answer)
}

#[unsafe(no_mangle)]
pub extern "C" fn dem_write_sheet(
    template: &[u8],
    grid: &[i32],
    out: &mut [u8],
    answer: &mut [u64],
) -> u32
    ensures { (result ≡ sent_kind (sent_by (sheet_sent_objection template.now grid.now (length out.old)))) × ((out.new ≡ sheet_after template.now grid.now out.old) × (answer.new ≡ handed (sent_beside (sent_by (sheet_sent_objection template.now grid.now (length out.old)))) answer.old)) }
{
    desk::dem_write_sheet(template, grid, out, answer)
}

#[unsafe(no_mangle)]
pub extern "C" fn dem_report(session: &[i64], out: &mut [u8]) -> usize
    ensures { Given (report_said session.now) out.old out.new result }
{
    desk::dem_report(session, out)
}
