use crate::{coder, drivers, files, rows, samples, written};

// A kind of calls. A new one is added at the end: its number draws its calls.
#[derive(Clone, Copy, PartialEq, Eq, Debug)]
pub enum Kind {
    InverseTransform2d,
    InverseTransform2dReference,
    ReconstructBlock,
    ForwardWht2d,
    QuantizeBlockTx,
    QuantizeBlock,
    MaxCodeableCoef,
    ReplayAndBlockrun,
    ReconstructBlockReport,
    RowSummary,
    ReplaceToken,
    InverseTransform2dRows,
    InverseTransform2d32,
    ForwardDct2d,
    QuantizeBlockRule,
    VbkWrite,
}

impl Kind {
    pub const ALL: [Kind; 16] = [
        Kind::InverseTransform2d,
        Kind::InverseTransform2dReference,
        Kind::ReconstructBlock,
        Kind::ForwardWht2d,
        Kind::QuantizeBlockTx,
        Kind::QuantizeBlock,
        Kind::MaxCodeableCoef,
        Kind::ReplayAndBlockrun,
        Kind::ReconstructBlockReport,
        Kind::RowSummary,
        Kind::ReplaceToken,
        Kind::InverseTransform2dRows,
        Kind::InverseTransform2d32,
        Kind::ForwardDct2d,
        Kind::QuantizeBlockRule,
        Kind::VbkWrite,
    ];

    // In 31 bytes, as far as the digest's column.
    pub fn name(self) -> &'static str {
        match self {
            Kind::InverseTransform2d => "inverse_transform_2d           ",
            Kind::InverseTransform2dReference => "inverse_transform_2d_reference ",
            Kind::ReconstructBlock => "reconstruct_block              ",
            Kind::ForwardWht2d => "forward_wht_2d                 ",
            Kind::QuantizeBlockTx => "quantize_block_tx              ",
            Kind::QuantizeBlock => "quantize_block                 ",
            Kind::MaxCodeableCoef => "max_codeable_coef              ",
            Kind::ReplayAndBlockrun => "replay and blockrun            ",
            Kind::ReconstructBlockReport => "reconstruct_block_report       ",
            Kind::RowSummary => "row_summary                    ",
            Kind::ReplaceToken => "replace_token                  ",
            Kind::InverseTransform2dRows => "inverse_transform_2d_rows      ",
            Kind::InverseTransform2d32 => "inverse_transform_2d_32        ",
            Kind::ForwardDct2d => "forward_dct_2d                 ",
            Kind::QuantizeBlockRule => "quantize_block_rule            ",
            Kind::VbkWrite => "vbk_write                      ",
        }
    }

    // The digest after one call more.
    pub fn call(self, key: u64, digest: u64) -> u64 {
        match self {
            Kind::InverseTransform2d => drivers::fast(key, digest),
            Kind::InverseTransform2dReference => drivers::reference(key, digest),
            Kind::ReconstructBlock => samples::reconstruct(key, digest),
            Kind::ForwardWht2d => coder::forward_wht(key, digest),
            Kind::QuantizeBlockTx => coder::quantize_tx(key, digest),
            Kind::QuantizeBlock => coder::quantize(key, digest),
            Kind::MaxCodeableCoef => coder::max_codeable(key, digest),
            Kind::ReplayAndBlockrun => files::run(key, digest),
            Kind::ReconstructBlockReport => samples::reconstruct_report(key, digest),
            Kind::RowSummary => rows::row_summary(key, digest),
            Kind::ReplaceToken => rows::replace_token(key, digest),
            Kind::InverseTransform2dRows => rows::inverse_transform_2d_rows(key, digest),
            Kind::InverseTransform2d32 => drivers::engine32(key, digest),
            Kind::ForwardDct2d => drivers::forward_dct(key, digest),
            Kind::QuantizeBlockRule => coder::quantize_rule(key, digest),
            Kind::VbkWrite => written::write(key, digest),
        }
    }
}
