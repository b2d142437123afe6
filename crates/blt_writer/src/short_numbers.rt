// The texts of short numbers.
ghost use Rattle.std.specs.Prelude.{◌≡◌, ◌≤◌, ◌+◌, ◌<◌, ◌++◌, decimal, length, take};
ghost use Rattle.blt_writer.specs.ShortTexts.{AreTexts, AreTextsBelow};
ghost use Rattle.blt_writer.specs.Text.{number_then};

use itoa::Buffer;

/// The numbers that fit into a byte, each as text with a space after it. Each text has four bytes of its
/// own, so that all four can be copied without a look at its length.
#[derive(Drop)]
pub(crate) struct ShortNumbers {
    texts: [u8; 1024],
    lens: [u8; 256],
}

impl ShortNumbers {
    pub fn new() -> ShortNumbers
        ensures { AreTexts result.texts result.lens }
    {
        let mut numbers = ShortNumbers {
            texts: [b' '; 1024],
            lens: [0; 256],
        };
        for n in 0..256 {
            numbers.spell(n);
        }
        numbers
    }

    /// Spells the next number.
    fn spell(&mut self, n: u16)
        requires next { n < 256 }
        requires so_far { AreTextsBelow n self.old.texts self.old.lens }
        ensures { AreTextsBelow (n + 1) self.new.texts self.new.lens }
    {
        let mut buffer = Buffer::new();
        let text = text_of(&mut buffer, n);
        let from = 4 * n as usize;
        let behind = from + text.len();
        self.texts[from..behind].copy_from_slice(text);
        self.texts[behind] = b' ';
        self.lens[n as usize] = text.len() as u8 + 1;
    }

    /// Writes a number and a space at a place, and gives the place after them. Four bytes from the place on
    /// may change.
    #[inline]
    pub fn put(&self, n: u8, bytes: &mut [u8], at: usize) -> usize
        requires sound { AreTexts self.now.texts self.now.lens }
        requires room { at + 4 ≤ length bytes.old }
        ensures text { take result bytes.new ≡ take at bytes.old ++ number_then 32 n }
        ensures short { result ≤ at + 4 }
        ensures same_length { length bytes.new ≡ length bytes.old }
    {
        let from = 4 * n as usize;
        let text = [
            self.texts[from],
            self.texts[from + 1],
            self.texts[from + 2],
            self.texts[from + 3],
        ];
        bytes[at..at + 4].copy_from_slice(&text);
        at + self.lens[n as usize] as usize
    }
}

/// A number below 256 as text.
fn text_of(buffer: &mut Buffer, n: u16) -> &[u8]
    requires { n < 256 }
    ensures text { result.now ≡ decimal n }
    ensures short { length result.now ≤ 3 }
{
    buffer.format(n).as_bytes()
}
