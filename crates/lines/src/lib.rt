// Lines of text, for the programs. A line is lent to each text that is laid into it, at the place reached so far; what
// has no room is left out. A line is printed as it stands, and of the printing nothing is promised.
#![tactic(auto)]

mod input;

ghost use Rattle.std.specs.Prelude.{◌≡◌, [], ◌∷◌};
ghost use Rattle.rules.specs.Numbers.{hex_digits};
ghost use Rattle.lines.specs.Lines.{LineTypes, decimal_text, spaced_texts, hex_texts, refused_texts};

pub use input::{input_buffer, read_full, read_input};

// A line that is being written: the bytes lent for it, and the place where the next text goes.
#[derive(Drop)]
pub struct Line<'a> {
    pub bytes: &'a mut [u8],
    pub end: usize,
}

impl<'a> Line<'a> {
    // A line over these bytes, with nothing on it.
    pub fn new(bytes: &'a mut [u8]) -> Line<'a>
        ensures same_reference { result.bytes.ghost_name ≡ bytes.entry.ghost_name }
        ensures content { result.bytes.now ≡ bytes.old }
        ensures empty { result.end ≡ 0 }
    {
        Line { bytes, end: 0 }
    }

    // The bytes as they are.
    #[tactic(auto, using(crate::proofs::Typed::line_fits, crate::proofs::Typed::line_not))]
    pub fn text(&mut self, what: &[u8])
        ensures { LineTypes (what.now ∷ []) self.old self.new }
    {
        let bytes = &mut *self.bytes;
        if self.end <= bytes.len() && what.len() <= bytes.len() - self.end {
            pens::put_bytes(bytes, self.end, what);
            self.end += what.len();
        }
    }

    // A number in decimal digits.
    #[tactic(auto, using(crate::proofs::Fewest::fewest))]
    pub fn number(&mut self, n: u64)
        ensures { LineTypes (decimal_text n ∷ []) self.old self.new }
    {
        let mut digits = [0u8; 20];
        let k = io::decimal(n, &mut digits);
        self.text(&digits[..k]);
    }

    // A space and a number.
    pub fn spaced(&mut self, n: u64)
        ensures { LineTypes (spaced_texts n) self.old self.new }
    {
        self.text(b" ");
        self.number(n);
    }

    // A byte as two hexadecimal digits.
    #[tactic(auto, unfolding(pens::specs::Pens::laid))]
    pub fn hex_byte(&mut self, b: u8)
        ensures { LineTypes (hex_digits b ∷ []) self.old self.new }
    {
        let mut digits = [0u8; 2];
        pens::put_hex(&mut digits, 0, b);
        self.text(&digits);
    }

    // Bytes as hexadecimal digits, with nothing between.
    pub fn hex(&mut self, bytes: &[u8])
        ensures { LineTypes (hex_texts bytes.now) self.old self.new }
    {
        for b in bytes {
            self.hex_byte(*b);
        }
    }

    // A refusal, by its number.
    pub fn refused(&mut self, n: u8)
        ensures { LineTypes (refused_texts n) self.old self.new }
    {
        self.text(b"refused");
        self.spaced(u64::from(n));
    }

    // Prints the line up to the place reached, and a line end, in one write.
    pub fn print(&mut self, rt: &impl Print) -> std::io::Result<()> {
        self.text(b"\n");
        let end = self.end;
        rt.write_all(texts::text(self.bytes, 0, end))
    }
}

// Prints a text as a line.
pub fn print_text(rt: &impl Print, what: &[u8]) -> std::io::Result<()> {
    let mut room = [0u8; 512];
    let mut line = Line::new(&mut room);
    line.text(what);
    line.print(rt)
}

// Prints a refusal as a line.
pub fn print_refused(rt: &impl Print, n: u8) -> std::io::Result<()> {
    let mut room = [0u8; 32];
    let mut line = Line::new(&mut room);
    line.refused(n);
    line.print(rt)
}
