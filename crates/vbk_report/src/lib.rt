// A run over a VBK file with a report beside it: what `vbk::replay` does, and every token of a block that is done counted.
#![tactic(auto)]

ghost use Rattle.vbk_report.specs.Lists.{beside};
ghost use Rattle.vbk_report.specs.Run.{report_reconstruction};
ghost use Rattle.vbk_report.specs.Promises.{ReplayedReport};

use answers::{Answer, Refusal};
use quant::{AcQuant, DcQuant};
use vbk::{Reconstruct, Run};
use vbk_read::{Fields, Head};

// The report that is kept beside the plane: how many tokens of each size and class were decoded, and the sums of their magnitudes.
#[derive(Drop)]
struct Report {
    counts: [u32; 44],
    sums: [u64; 44],
}

impl Reconstruct for Report {
    ghost beside = { λ samples report. beside samples report.counts report.sums };

    ghost rebuilds = { report_reconstruction };

    fn block(&mut self, samples: &mut [u16], fields: Fields, head: Head, tokens: &[i64]) -> Answer {
        report::reconstruct_block_report(
            samples,
            vbk::plane_of(fields),
            head.x as usize,
            head.y as usize,
            head.size as u32,
            tokens,
            DcQuant(vbk::quantizer(head.dc)),
            AcQuant(vbk::quantizer(head.ac)),
            head.tx_type,
            head.lossless == 1,
            fields.depth as u32,
            &mut self.counts,
            &mut self.sums,
        )
    }
}

// A run over a file with a report: `vbk::replay`, and the tokens of every block that is done counted. A block whose report is refused is
// answered 15, and the run goes on.
pub fn replay_report(
    file: &[u8],
    samples: &mut [u16],
    answers: &mut [u8],
    counts: &mut [u32; 44],
    sums: &mut [u64; 44],
) -> Result<Run, Refusal>
    ensures { ReplayedReport file.now samples.old answers.old counts.old sums.old result samples.new answers.new counts.new sums.new }
{
    let mut report = Report {
        counts: *counts,
        sums: *sums,
    };
    let outcome = vbk::replay_with(file, samples, answers, &mut report);
    *counts = report.counts;
    *sums = report.sums;
    outcome
}
