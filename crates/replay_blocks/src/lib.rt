// Kinds 22, 30 and 31 of oracle/README.md: a block reconstructed, a VBK file, and a block with a report beside it. Each call reads what is
// left of its line, and is Broken where the line has something else than was expected.
#![tactic(auto)]

use answers::{Answer, Refusal};
use lines::{Broken, Line};
use plane::Plane;
use quant::{AcQuant, DcQuant};
use vbk::Run;

// What stands before the lists of a reconstructed block.
#[derive(Clone, Copy)]
struct Block {
    x: usize,
    y: usize,
    size: u32,
    tx_type: u8,
    lossless: bool,
    depth: u32,
    dc: DcQuant,
    ac: AcQuant,
    plane: Plane,
}

impl Block {
    fn read(line: &mut Line) -> Result<Block, Broken> {
        let x = line.integer()?;
        let y = line.integer()?;
        let size = line.integer()?;
        let tx_type = line.integer()?;
        let lossless = line.flag()?;
        let depth = line.integer()?;
        let dc = line.integer()?;
        let ac = line.integer()?;
        let width = line.integer()?;
        let height = line.integer()?;
        let stride = line.integer()?;
        Ok(Block {
            x,
            y,
            size,
            tx_type,
            lossless,
            depth,
            dc: DcQuant(dc),
            ac: AcQuant(ac),
            plane: Plane {
                width,
                height,
                stride,
            },
        })
    }

    fn reconstruct(self, tokens: &[i64], samples: &mut [u16]) -> Answer {
        reconstruct::reconstruct_block(
            samples,
            self.plane,
            self.x,
            self.y,
            self.size,
            tokens,
            self.dc,
            self.ac,
            self.tx_type,
            self.lossless,
            self.depth,
        )
    }

    fn reconstruct_report(
        self,
        tokens: &[i64],
        samples: &mut [u16],
        counts: &mut [u32; 44],
        sums: &mut [u64; 44],
    ) -> Answer {
        report::reconstruct_block_report(
            samples,
            self.plane,
            self.x,
            self.y,
            self.size,
            tokens,
            self.dc,
            self.ac,
            self.tx_type,
            self.lossless,
            self.depth,
            counts,
            sums,
        )
    }
}

// Room for the longest list of samples.
const SAMPLES: usize = 65536;

// Room for the longest list of tokens.
const TOKENS: usize = 2048;

// Kind 22.
pub fn reconstruct_block(line: &mut Line) -> Result<(), Broken> {
    let block = Block::read(line)?;
    let mut tokens = [0i64; TOKENS];
    let token_count = line.list(&mut tokens)?;
    let lent = *line;
    let mut samples = [0u16; SAMPLES];
    let count = line.list(&mut samples)?;
    let answer = block.reconstruct(&tokens[..token_count], &mut samples[..count]);
    line.same_integer(answers::code(answer))?;
    line.same_lent(lent, &samples[..count])
}

// A sum as a number; -1 where it is beyond all that a line can hold.
fn signed(sum: u64) -> i64 {
    i64::try_from(sum).unwrap_or(-1)
}

// Kind 31.
pub fn reconstruct_block_report(line: &mut Line) -> Result<(), Broken> {
    let block = Block::read(line)?;
    let mut tokens = [0i64; TOKENS];
    let token_count = line.list(&mut tokens)?;
    let lent_samples = *line;
    let mut samples = [0u16; SAMPLES];
    let count = line.list(&mut samples)?;
    let lent_counts = *line;
    let mut counts = [0u32; 44];
    line.whole_list(&mut counts)?;
    let lent_sums = *line;
    let mut sums = [0u64; 44];
    line.whole_list(&mut sums)?;
    let answer = block.reconstruct_report(
        &tokens[..token_count],
        &mut samples[..count],
        &mut counts,
        &mut sums,
    );
    line.same_integer(answers::code(answer))?;
    line.same_lent(lent_samples, &samples[..count])?;
    line.same_lent(lent_counts, &counts)?;
    line.same_lent(lent_sums, &sums.map(signed))
}

// The outcome is that of a run; a refused one has zeros.
fn same_run(
    line: &mut Line,
    outcome: Result<Run, Refusal>,
    answers: &[u8],
    samples: &[u16],
) -> Result<(), Broken> {
    let (number, touched, count, area) = match outcome {
        Ok(run) => {
            let area = vbk_read::plane_area(run.fields.width, run.fields.height);
            (0, run.touched, run.count, area)
        }
        Err(refusal) => (u32::from(refusal), 0, 0, 0),
    };
    line.same_integer(number)?;
    line.same_integer(touched)?;
    line.same_list(answers.get(..count).ok_or(Broken)?)?;
    line.same_list(samples.get(..area).ok_or(Broken)?)
}

// Kind 30.
pub fn vbk_file(line: &mut Line) -> Result<(), Broken> {
    let mut file = [0u8; 65536];
    let count = line.list(&mut file)?;
    let mut samples = [0u16; 4096];
    let mut answers = [0u8; 874];
    let run = vbk::replay(&file[..count], &mut samples, &mut answers);
    same_run(line, run, &answers, &samples)
}
