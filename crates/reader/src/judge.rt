// The first pass: whether an image is accepted.
ghost use Rattle.std.specs.Prelude.{◌≡◌};
ghost use Rattle.image.specs.Judge.{judge_of};

use crate::view;
use image::{Counts, ReadError, ReadRefusal, Step};

// Its number of prototypes where it is.
pub(crate) fn judge(s: &[u8]) -> Result<usize, ReadRefusal>
    ensures { result ≡ judge_of s.now }
{
    if 65536 < s.len() {
        return Err(ReadRefusal {
            error: ReadError::PastLimit,
            line: 0,
        });
    }
    let mut at = 0;
    let mut line = 0;
    let mut st = Counts {
        protos: 0,
        consts: 0,
        codes: 0,
        descs: 0,
    };
    while at < s.len() {
        let n = view::frame_at(s, at);
        let f = n.frame;
        let next = n.next;
        let t = image::step_on(st, f);
        match t {
            Step::On(u) => {
                st = u;
            }
            Step::Done => {
                if next == s.len() {
                    return Ok(st.protos);
                }
                return Err(ReadRefusal {
                    error: ReadError::WrongEnd,
                    line: line + 1,
                });
            }
            Step::No(error) => {
                return Err(ReadRefusal { error, line });
            }
        }
        at = next;
        line = line + 1;
    }
    Err(ReadRefusal {
        error: ReadError::WrongEnd,
        line,
    })
}
