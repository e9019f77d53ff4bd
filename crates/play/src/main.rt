// Reads a level from standard input, and shows its pieces as they are set out, or says why it is no level.
#![tactic(auto)]

ghost use Rattle.std.specs.Prelude.{◌≡◌};
ghost use Rattle.play.specs.Input.{level_part};

use game::Game;
use level::Level;
use mail::queue::QueueMail;
use std::fmt;
use std::io::Read;

// The level's part of the input.
fn level_part(input: &[u8]) -> &[u8]
    ensures { result.now ≡ level_part input.now }
{
    match input {
        [high, low, rest @ ..] => {
            let length = u16::from_be_bytes([*high, *low]) as usize;
            rest.get(..length).unwrap_or(rest)
        }
        _ => &[],
    }
}

// A piece's line of the report: its number, its state, its numbers with commas, and how many messages wait for it.
#[derive(Drop)]
struct Line<'a> {
    game: &'a Game<QueueMail>,
    piece: u8,
    numbers: u8,
}

impl fmt::Display for Line<'_> {
    fn fmt<W: fmt::Write>(&self, f: &mut fmt::Formatter<W>) -> fmt::Result {
        write!(f, "{} {} ", self.piece, self.game.state(self.piece))?;
        if self.numbers == 0 {
            f.write_str("-")?;
        }
        // Each number is asked for by its index: a game lends no row.
        for index in 0..self.numbers {
            if index > 0 {
                f.write_str(",")?;
            }
            write!(f, "{}", self.game.number(self.piece, index as usize))?;
        }
        write!(f, " {}", self.game.waiting(self.piece))
    }
}

fn run(rt: &HostRuntime) -> anyhow::Result<()> {
    let mut input = Vec::new(rt.alloc());
    rt.stdin().read_to_end(&mut input)?;
    let mut level = Level::new();
    if let Err(fault) = level.load(level_part(&input)) {
        println!(rt; "level {} byte {}", fault.number(), fault.byte)?;
        return Ok(());
    }
    let mut game = Game::new(QueueMail::new());
    game.set_out(&level);
    for piece in 0..32 {
        if let Some(entry) = level.piece(piece as usize) {
            let line = Line {
                game: &game,
                piece,
                numbers: entry.numbers,
            };
            println!(rt; "{line}")?;
        }
    }
    println!(rt; "ok 0")?;
    Ok(())
}

fn main(rt: HostRuntime) -> anyhow::Result<()> {
    run(&rt)
}
