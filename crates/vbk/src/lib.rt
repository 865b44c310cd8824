// A run over a VBK file.
#![tactic(auto)]

ghost use Rattle.std.specs.Prelude.{◌≡◌, List, ℕ, ◌+◌, ◌*◌, ◌≤◌, ◌<◌, pos, true, length};
ghost use Rattle.answers.specs.Answers.{number};
ghost use Rattle.answers.specs.Limits.{FILE_LIMIT};
ghost use Rattle.vbk_read.specs.Header.{plane_area, samples_of, header_answer, fields_of};
ghost use Rattle.vbk_read.specs.Records.{size_at, head_at, next_at, is_found, Recorded};
ghost use Rattle.vbk.specs.Replay.{Reconstruction, RECORD_LIMIT, touched_by, plane_of, rebuild_at, record_at, records, block_of};
ghost use Rattle.vbk.specs.Filled.{reconstruction};
ghost use Rattle.vbk.specs.Promises.{run_by, roomy, Played, Replayed, Printed};
ghost use Rattle.vbk.specs.Inner.{Stepped, Ran, outcome_of};
ghost use Rattle.vbk_text.specs.Text.{text};
ghost use Rattle.vbk_text.specs.Inner.{Room, Put};

use answers::{Answer, Refusal};
use plane::Plane;
use quant::{AcQuant, DcQuant};
pub use touched::touched_by;
use vbk_read::{Fields, Head, Record};

// No file has more records: the first one stands at byte 12 or later, and all but the last take 75 bytes or more.
pub const RECORD_LIMIT: usize = 874;

// The answer's number, as the byte that is kept of it.
pub fn number8(a: Answer) -> u8
    ensures { result ≡ number a }
{
    answers::code(a) as u8
}

pub fn quantizer(q: u16) -> i32
    ensures { result ≡ pos q }
{
    i32::from(q)
}

// What a run does with each block of a file: to the samples, and to what it keeps beside them, such as a report.
pub trait Reconstruct {
    // the samples and what is kept beside them, in one list
    ghost beside: { List ℕ → Self → List ℕ };

    // what is done to that list
    ghost rebuilds: { Reconstruction };

    // One block: its answer, and all of that list afterwards.
    fn block(&mut self, samples: &mut [u16], fields: Fields, head: Head, tokens: &[i64]) -> Answer
        ensures answered { number result ≡ (block_of rebuilds fields head tokens.now (beside samples.old self.old)).answer }
        ensures written { beside samples.new self.new ≡ (block_of rebuilds fields head tokens.now (beside samples.old self.old)).samples };
}

// The plane alone, with nothing beside it.
#[derive(Clone, Copy)]
pub struct Alone;

impl Reconstruct for Alone {
    ghost beside = { λ samples _. samples };

    ghost rebuilds = { reconstruction };

    fn block(&mut self, samples: &mut [u16], fields: Fields, head: Head, tokens: &[i64]) -> Answer {
        reconstruct::reconstruct_block(
            samples,
            plane_of(fields),
            head.x as usize,
            head.y as usize,
            head.size as u32,
            tokens,
            DcQuant(quantizer(head.dc)),
            AcQuant(quantizer(head.ac)),
            head.tx_type,
            head.lossless == 1,
            fields.depth as u32,
        )
    }
}

// The plane of a file: its lines have no padding.
pub fn plane_of(fields: Fields) -> Plane
    ensures { result ≡ record { width = fields.width; height = fields.height; stride = fields.width } }
{
    let width = fields.width as usize;
    Plane {
        width,
        height: fields.height as usize,
        stride: width,
    }
}

// The record at a place, whole and with a good lossless byte: its tokens are read, and reconstruction answers.
fn rebuild<B: Reconstruct>(
    file: &[u8],
    at: usize,
    head: Head,
    fields: Fields,
    samples: &mut [u16],
    blocks: &mut B,
) -> Answer
    requires { (size_at file.now at ≤ 3) × (next_at file.now at ≤ length file.now) × (head ≡ head_at file.now at) × (fields ≡ fields_of file.now) }
    ensures answered { number result ≡ (rebuild_at B.rebuilds file.now at (B.beside samples.old blocks.old)).answer }
    ensures written { B.beside samples.new blocks.new ≡ (rebuild_at B.rebuilds file.now at (B.beside samples.old blocks.old)).samples }
{
    let n = answers::area(head.size as u32 + 2);
    let mut tokens = [0i64; 1024];
    let start = head.next;
    start.read_tokens(file, n, &mut tokens);
    blocks.block(samples, fields, head, &tokens[..n])
}

// What a record comes to: its answer as it is kept, and its touched count.
#[derive(Clone, Copy)]
struct Outcome {
    answer: u8,
    touched: usize,
}

// A record's answer, reconstruction's or that of its own checks, which change nothing and touch nothing.
fn answer_record<B: Reconstruct>(
    file: &[u8],
    at: usize,
    record: Record,
    fields: Fields,
    samples: &mut [u16],
    blocks: &mut B,
) -> Outcome
    requires { (fields ≡ fields_of file.now) × Recorded file.now at «record» × (is_found «record» ≡ true) }
    ensures answered { result.answer ≡ (record_at B.rebuilds file.now at (B.beside samples.old blocks.old)).answer }
    ensures touched { result.touched ≡ touched_by (record_at B.rebuilds file.now at (B.beside samples.old blocks.old)).answer (plane_of file.now) (head_at file.now at) }
    ensures written { B.beside samples.new blocks.new ≡ (record_at B.rebuilds file.now at (B.beside samples.old blocks.old)).samples }
{
    if let Record::Whole(head, _) = record {
        let answer = number8(rebuild(file, at, head, fields, samples, blocks));
        let touched = touched_by(answer, fields, head);
        return Outcome { answer, touched };
    }
    Outcome {
        answer: number8(record.answer()),
        touched: 0,
    }
}

// How many records were read, and the touched count.
#[derive(Clone, Copy)]
pub struct Tally {
    pub count: usize,
    pub touched: usize,
}

// One record of the run: its answer is kept, and its touched count added.
fn one_record<B: Reconstruct>(
    file: &[u8],
    at: usize,
    record: Record,
    fields: Fields,
    samples: &mut [u16],
    answers: &mut [u8],
    tally: Tally,
    blocks: &mut B,
) -> Tally
    requires { (fields ≡ fields_of file.now) × Recorded file.now at «record» × (is_found «record» ≡ true) × (tally.count < length answers.old) × (tally.touched ≤ FILE_LIMIT) }
    ensures { Stepped B.rebuilds file.now at (B.beside samples.old blocks.old) answers.old tally.count tally.touched (B.beside samples.new blocks.new) answers.new result.count result.touched }
{
    let outcome = answer_record(file, at, record, fields, samples, blocks);
    let count = tally.count;
    answers[count] = outcome.answer;
    Tally {
        count: count + 1,
        touched: tally.touched + outcome.touched,
    }
}

// The records from a place on, until there is none: one reader from the first to the last, walked by hand.
fn read_records<B: Reconstruct>(
    file: &[u8],
    from: usize,
    fields: Fields,
    samples: &mut [u16],
    answers: &mut [u8],
    blocks: &mut B,
) -> Tally
    requires { (fields ≡ fields_of file.now) × (length file.now ≤ FILE_LIMIT) × (12 ≤ from) × (from ≤ length file.now) × (RECORD_LIMIT ≤ length answers.old) }
    ensures { Ran (records B.rebuilds file.now (length file.now) from (B.beside samples.old blocks.old)) result.count result.touched answers.old answers.new (B.beside samples.new blocks.new) }
{
    let mut reader = vbk_read::open(file, from);
    let mut tally = Tally {
        count: 0,
        touched: 0,
    };
    while reader.record.is_found() {
        tally = one_record(
            file,
            reader.at,
            reader.record,
            fields,
            samples,
            answers,
            tally,
            blocks,
        );
        reader = reader.next();
    }
    tally
}

// The samples as the file has them, then the records.
fn play<B: Reconstruct>(
    file: &[u8],
    fields: Fields,
    samples: &mut [u16],
    answers: &mut [u8],
    blocks: &mut B,
) -> Tally
    requires { (header_answer file.now ≡ 0) × (fields ≡ fields_of file.now) × (length samples.old ≡ plane_area file.now) × (RECORD_LIMIT ≤ length answers.old) }
    ensures { Ran (run_by B.rebuilds file.now (B.beside (samples_of file.now) blocks.old)) result.count result.touched answers.old answers.new (B.beside samples.new blocks.new) }
{
    let n = samples.len();
    let start = fields.next;
    let first = start.read_samples(file, n, samples);
    read_records(file, first.at, fields, samples, answers, blocks)
}

// A run that is not refused: the header, how many records were read, and the touched count.
#[derive(Clone, Copy)]
pub struct Run {
    pub fields: Fields,
    pub count: usize,
    pub touched: usize,
}

// The lent rooms hold any run's plane and answers.
fn roomy(samples: &[u16], answers: &[u8]) -> bool
    ensures { result ≡ roomy samples.now answers.now }
{
    answers::AREA_LIMIT <= samples.len() && RECORD_LIMIT <= answers.len()
}

// A run over a file, its blocks reconstructed by `blocks`: the plane is left at the front of `samples`, and every record's answer at the front
// of `answers`. Refused, all is as it was.
pub fn replay_with<B: Reconstruct>(
    file: &[u8],
    samples: &mut [u16],
    answers: &mut [u8],
    blocks: &mut B,
) -> Result<Run, Refusal>
    ensures { Played B.rebuilds B.beside file.now samples.old answers.old blocks.old result samples.new answers.new blocks.new }
{
    if !roomy(samples, answers) {
        return Err(Refusal::Length);
    }
    let fields = vbk_read::read_header(file)?;
    let n = vbk_read::plane_area(fields.width, fields.height);
    let tally = play(file, fields, &mut samples[..n], answers, blocks);
    Ok(Run {
        fields,
        count: tally.count,
        touched: tally.touched,
    })
}

// A run over a file, with nothing beside the plane.
pub fn replay(file: &[u8], samples: &mut [u16], answers: &mut [u8]) -> Result<Run, Refusal>
    ensures { Replayed file.now samples.old answers.old result samples.new answers.new }
{
    replay_with(file, samples, answers, &mut Alone)
}

// The text of a run that is not refused.
fn print_run(run: Run, samples: &[u16], answers: &[u8], out: &mut [u8]) -> usize
    requires { (run.count ≤ length answers.now) × (run.fields.width * run.fields.height ≤ length samples.now) × Room out.old 0 (text (outcome_of run samples.now answers.now)) }
    ensures { Put out.old 0 (text (outcome_of run samples.now answers.now)) result out.new }
{
    let fields = run.fields;
    let count = run.count;
    let n = vbk_read::plane_area(fields.width, fields.height);
    let version = u64::from(fields.version);
    let depth = u64::from(fields.depth);
    let width = usize::from(fields.width);
    let height = usize::from(fields.height);
    vbk_text::write_run(
        out,
        version,
        depth,
        width,
        height,
        &answers[..count],
        &samples[..n],
        run.touched as u64,
    )
}

// A run over a file and its text, which is left at the front of `out`; how long it is. 0 where a lent room is too short.
pub fn blockrun(file: &[u8], samples: &mut [u16], answers: &mut [u8], out: &mut [u8]) -> usize
    ensures { Printed file.now samples.old answers.old out.old result samples.new answers.new out.new }
{
    if out.len() < vbk_text::TEXT_LIMIT {
        return 0;
    }
    if !roomy(samples, answers) {
        return 0;
    }
    match replay(file, samples, answers) {
        Ok(run) => print_run(run, samples, answers, out),
        Err(refusal) => vbk_text::write_refusal(out, u64::from(u32::from(refusal))),
    }
}
