// The reader of plot files. A file is any bytes; what it holds, or the number of its refusal, is a
// definition over its bytes alone (specs/PlotFile.antt), and nothing is asked of a caller.
//
// The core reads a slice from a place on, a record at a time: marks.rt the mark, bodies.rt the body
// behind it, holes.rt a hole, records.rt a whole record. What is read comes back with the bytes behind
// it, a slice of those that went in. Over the core stands the plot reader (reader.rt), a struct that
// holds the slice and a position in it. `read_records` makes one and goes through the file with it: it
// reads the record at the position, and moves the position to where the next one begins.
#![tactic(auto)]

ghost use Rattle.std.specs.Prelude.{◌≡◌};
ghost use Rattle.refusal.specs.Refusal.{map_answer, answer_of};
ghost use Rattle.plot_file.specs.PlotFile.{plot_in, ReadsPlot};
ghost use Rattle.plot_file.specs.Inner.{plot_of};

use board::RectangularBoard;
use plots::Plot;
use reader::PlotReader;
use refusal::Refusal;
use tiles::Tiles;

mod bodies;
mod holes;
mod marks;
mod plots;
mod reader;
mod records;

// A board and tiles, or a refusal with the 0 by 0 board and no tiles.
// Kept: not `Result<Plot, Refusal>`: a refusal hands back the 0 by 0 board and no tiles (theorem
// `read_refused`, clause `ReadsPlot` of `read_plot`).
#[derive(Clone, Copy, Drop)]
pub struct MadePlot {
    pub verdict: Result<(), Refusal>,
    pub board: RectangularBoard,
    pub tiles: Tiles,
}

// The board and the tiles of a plot file, or its refusal: record by record, 1, the mark is cut or
// missing; 2, an unknown mark; 3, the first record is no board, or a later one is, or a hole stands
// after a tile; 1, a length or body byte is missing (but a length over 32 is 5 before its bytes are
// looked for); 4, the board's size; 15, a hole outside the board or on a marked cell; 5, a code over
// 7; 6, the tiles would pass 64; 3, a byte after EN.
pub fn read_plot(file: &[u8]) -> MadePlot
    ensures { ReadsPlot (plot_in file.now) result }
{
    match read_records(file) {
        Ok(Plot { board, tiles }) => MadePlot {
            verdict: Ok(()),
            board,
            tiles,
        },
        Err(refusal) => {
            let Plot { board, tiles } = records::no_plot();
            MadePlot {
                verdict: Err(refusal),
                board,
                tiles,
            }
        }
    }
}

// The plot of a file, read record by record, or its refusal.
fn read_records(file: &[u8]) -> Result<Plot, Refusal>
    ensures { map_answer plot_of (answer_of result) ≡ plot_in file.now }
{
    let mut reader = PlotReader::new(file);
    let mut plot = records::no_plot();
    loop {
        let step = reader.next_record(plot)?;
        plot = step.plot;
        let Some(rest) = step.next else {
            return Ok(plot);
        };
        reader = reader.up_to(rest);
    }
}
