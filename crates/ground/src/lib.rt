// What a cell of a message is, what a block of numbers is, and scans of a whole slice.
#![tactic(auto)]

mod refusals;

ghost use Rattle.std.specs.Prelude.{◌≡◌};
ghost use Rattle.ground.specs.Block.{is_block};
ghost use Rattle.ground.specs.Cell.{cell, cells, is_message};
ghost use Rattle.ground.specs.Every.{filled};

pub use refusals::Refusal;

fn is_cell(b: u8) -> bool
    ensures { result ≡ cell b }
{
    (0x20..=0x7E).contains(&b)
}

pub fn is_block(b: u16) -> bool
    ensures { result ≡ is_block b }
{
    (1..=1024).contains(&b)
}

// Whether every byte of `s` is a cell. It looks at all, so that the compiler takes many at a time.
pub fn all_cells(s: &[u8]) -> bool
    ensures { result ≡ cells s.now }
{
    s.iter().fold(true, |all, b| all & is_cell(*b))
}

// Whether 16 bytes are a message. Ends at the first that is no cell: by `all_cells` a console's step alone would take 16 bytes more of the stack.
pub fn is_message(m: &[u8; 16]) -> bool
    ensures { result ≡ is_message m.now }
{
    m.iter().all(|b| is_cell(*b))
}

// Whether every byte of `s` is `b`. It looks at all, so that the compiler takes many at a time.
pub fn all_are(s: &[u8], b: u8) -> bool
    ensures { result ≡ filled b s.now }
{
    s.iter().fold(true, |all, x| all & (*x == b))
}
