// The entry points for C and Rust: numbers and slices in, an answer's numbers out, in the paper's order. `seamwhisk_c` exports them.
#![tactic(auto)]

mod numbers;

ghost use Rattle.std.specs.Prelude.{◌≡◌};
ghost use Rattle.ground.specs.Protocol.{gives};
ghost use Rattle.checker.specs.Answer.{answer as answer_checked};
ghost use Rattle.quick.specs.Answer.{first_fit, meta_offset};
ghost use Rattle.oneslot.specs.Answer.{one_slot};
ghost use Rattle.joined.specs.Answer.{lists as lists_texts, planning};
ghost use Rattle.planfile.specs.Answer.{lists, read_gives, write_gives};
ghost use Rattle.records.specs.Columns.{delays_of, offsets_of};
ghost use Rattle.report.specs.Answer.{answer as answer_reported};
ghost use Rattle.search.specs.Answer.{exactly};
ghost use Rattle.search.specs.Ceilings.{ceiling_up_to};
ghost use Rattle.text.specs.Answer.{reading};
ghost use Rattle.seamwhisk.specs.Numbers.{link_of, as_numbers, checked_as, planned_as, searched_as, read_as, run_as, written_as, file_as};
ghost use Rattle.seamwhisk.specs.Numbers.{reported_as};

use link::Link;
use records::Record;

pub fn seamwhisk_check(
    period: u32,
    size: u32,
    delays: &[u32],
    offsets: &[u32],
    answer: &mut [u64; 5],
)
    ensures { answer.new
        ≡ checked_as (answer_checked (link_of period size) delays.now offsets.now) }
{
    *answer = numbers::checked(checker::check(Link { period, size }, delays, offsets));
}

// The checker over a list of records.
pub fn seamwhisk_check_records(period: u32, size: u32, records: &[Record], answer: &mut [u64; 5])
    ensures { answer.new
        ≡ checked_as (answer_checked (link_of period size) (delays_of records.now) (offsets_of records.now)) }
{
    *answer = numbers::checked(records::check_records(Link { period, size }, records));
}

pub fn seamwhisk_first_fit(
    period: u32,
    size: u32,
    delays: &[u32],
    offsets: &mut [u32],
    answer: &mut [u64; 2],
)
    ensures { gives answer.new offsets.new
        ≡ as_numbers planned_as (first_fit (link_of period size) delays.now offsets.old) }
{
    *answer = numbers::planned(quick::first_fit(Link { period, size }, delays, offsets));
}

pub fn seamwhisk_meta_offset(
    period: u32,
    size: u32,
    delays: &[u32],
    offsets: &mut [u32],
    answer: &mut [u64; 2],
)
    ensures { gives answer.new offsets.new
        ≡ as_numbers planned_as (meta_offset (link_of period size) delays.now offsets.old) }
{
    *answer = numbers::planned(quick::meta_offset(Link { period, size }, delays, offsets));
}

pub fn seamwhisk_one_slot(
    period: u32,
    size: u32,
    delays: &[u32],
    offsets: &mut [u32],
    answer: &mut [u64; 2],
)
    ensures { gives answer.new offsets.new
        ≡ as_numbers planned_as (one_slot (link_of period size) delays.now offsets.old) }
{
    *answer = numbers::planned(oneslot::one_slot(Link { period, size }, delays, offsets));
}

pub fn seamwhisk_exact(
    period: u32,
    size: u32,
    delays: &[u32],
    budget: u64,
    offsets: &mut [u32],
    answer: &mut [u64; 3],
)
    ensures { gives answer.new offsets.new
        ≡ as_numbers searched_as (exactly (link_of period size) delays.now budget offsets.old) }
{
    *answer = numbers::searched(search::exact(Link { period, size }, delays, budget, offsets));
}

pub fn seamwhisk_ceiling(rows: usize) -> u64
    ensures { result ≡ ceiling_up_to rows }
{
    search::ceiling(rows)
}

pub fn seamwhisk_read_table(text: &[u8], delays: &mut [u32], answer: &mut [u64; 5])
    ensures { gives answer.new delays.new
        ≡ as_numbers read_as (reading text.now delays.old) }
{
    *answer = numbers::read(text::read_table(text, delays));
}

// The answers to joined texts are a flat list, four numbers each; the header's `seamwhisk_plan_texts` takes it as a list of structs.
pub fn seamwhisk_plan_texts_flat(
    texts: &[u8],
    budget: u64,
    answers: &mut [u64],
    offsets: &mut [u32],
    answer: &mut [u64; 3],
)
    ensures { gives answer.new (lists_texts answers.new offsets.new)
        ≡ as_numbers run_as (planning texts.now budget (lists_texts answers.old offsets.old)) }
{
    *answer = numbers::run(joined::plan_texts(texts, budget, answers, offsets));
}

pub fn seamwhisk_write_plan(
    period: u32,
    size: u32,
    delays: &[u32],
    offsets: &[u32],
    file: &mut [u8],
    answer: &mut [u64; 3],
)
    ensures { gives answer.new file.new
        ≡ as_numbers written_as (write_gives (link_of period size) delays.now offsets.now file.old) }
{
    *answer = numbers::written(planfile::write_plan(Link { period, size }, delays, offsets, file));
}

pub fn seamwhisk_read_plan(
    file: &[u8],
    delays: &mut [u32],
    offsets: &mut [u32],
    answer: &mut [u64; 5],
)
    ensures { gives answer.new (lists delays.new offsets.new)
        ≡ as_numbers file_as (read_gives file.now delays.old offsets.old) }
{
    *answer = numbers::file(filereader::read_plan(file, delays, offsets));
}

pub fn seamwhisk_report(
    period: u32,
    size: u32,
    delays: &[u32],
    offsets: &[u32],
    answer: &mut [u64; 8],
)
    ensures { answer.new
        ≡ reported_as (answer_reported (link_of period size) delays.now offsets.now) }
{
    *answer = numbers::reported(report::report(Link { period, size }, delays, offsets));
}
