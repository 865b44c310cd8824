// A VBK file made of a clip's text (docs/REFERENCE.md): the rows are read into lists, the lists written by `vbk_write`.
#![tactic(auto)]

ghost use Rattle.std.specs.Prelude.{◌≤◌, length};
ghost use Rattle.clip_make.specs.Make.{MadeOf};

use clip_parse::Clip;
use clip_told::Fault;

// How long the file is, if the text made one; how long the words are: on what is wrong, or warnings.
#[derive(Clone, Copy)]
pub struct Made {
    pub file: Option<usize>,
    pub said: usize,
}

// The first n of a list; all where it is shorter.
fn first<T>(list: &[T], n: usize) -> &[T] {
    list.get(..n).unwrap_or(list)
}

// The clip's lists, written.
fn write(clip: &Clip, out: &mut [u8], words: &mut [u8]) -> Made
    ensures { MadeOf out.old words.old result out.new words.new }
{
    let state = clip.state;
    let (depth, width, height) = match state.header {
        Some(header) => (header.depth, header.plane.width, header.plane.height),
        None => (0, 0, 0),
    };
    let n = state.extent.records;
    let written = vbk_write::vbk_write(
        depth,
        width,
        height,
        first(&clip.samples, state.samples as usize),
        first(&clip.xs, n),
        first(&clip.ys, n),
        first(&clip.sizes, n),
        first(&clip.tx_types, n),
        first(&clip.lossless, n),
        first(&clip.dcs, n),
        first(&clip.acs, n),
        first(&clip.counts, n),
        first(&clip.tokens, state.extent.start + state.extent.need),
        out,
    );
    match written {
        Ok(length) => Made {
            file: Some(length),
            said: state.said.min(words.len()),
        },
        Err(refusal) => {
            let told = state.told(Fault::Refused {
                answer: u32::from(refusal),
            });
            Made {
                file: None,
                said: clip_told::tell(words, state.said, told),
            }
        }
    }
}

// The file of a text, at the start of the buffer; or words on what is wrong, and nothing there.
pub fn make(text: &[u8], out: &mut [u8], words: &mut [u8]) -> Made
    ensures { MadeOf out.old words.old result out.new words.new }
{
    let clip = clip_parse::take_rows(text, words);
    if clip.state.faults != 0 {
        return Made {
            file: None,
            said: clip.state.said.min(words.len()),
        };
    }
    write(&clip, out, words)
}
