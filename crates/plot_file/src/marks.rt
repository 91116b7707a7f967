// The mark that a record begins with. Private helpers.
ghost use Rattle.std.specs.Prelude.{◌≡◌, get_or};
ghost use Rattle.refusal.specs.Refusal.{answer_of};
ghost use Rattle.plot_file.specs.PlotFile.{all_marks, mark_among, read_mark};
ghost use Rattle.plot_file.specs.Inner.{marked_answer};

use refusal::Refusal;

// The marks of the records.
#[derive(Clone, Copy, Drop)]
pub enum Mark {
    RB,
    LB,
    TB,
    HO,
    TI,
    OR,
    EN,
}

impl TryFrom<[u8; 2]> for Mark {
    type Error = Refusal;

    ghost try_from_gives = { λ pair r. answer_of r ≡ mark_among all_marks (get_or pair 0 0) (get_or pair 1 0) };

    // The mark of two bytes; refusal 2 for another pair.
    #[tactic(auto, unfolding(crate::specs::PlotFile::mark_among, crate::specs::PlotFile::spells, crate::specs::PlotFile::letters, cells::specs::Lists::ascii))]
    fn try_from(pair: [u8; 2]) -> Result<Mark, Refusal> {
        match pair {
            [b'R', b'B'] => Ok(Mark::RB),
            [b'L', b'B'] => Ok(Mark::LB),
            [b'T', b'B'] => Ok(Mark::TB),
            [b'H', b'O'] => Ok(Mark::HO),
            [b'T', b'I'] => Ok(Mark::TI),
            [b'O', b'R'] => Ok(Mark::OR),
            [b'E', b'N'] => Ok(Mark::EN),
            _ => Err(Refusal::UnknownMark),
        }
    }
}

// The mark that the bytes begin with, and the bytes behind it; refusal 1 where it is cut or missing.
pub fn read_mark(bytes: &[u8]) -> Result<(Mark, &[u8]), Refusal>
    ensures { marked_answer result ≡ read_mark bytes.now }
{
    let [a, b, rest @ ..] = bytes else {
        return Err(Refusal::Cut);
    };
    let mark = Mark::try_from([*a, *b])?;
    Ok((mark, rest))
}
