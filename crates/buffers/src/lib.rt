// Writing bytes into a lent area: filling it, and a writer that writes one thing behind the other.
#![tactic(auto)]

ghost use Rattle.std.specs.Prelude.{◌≡◌, ◌≤◌, [], ◌∷◌, length, replicate};
ghost use Rattle.basics.specs.Bytes.{bytes_of};
ghost use Rattle.basics.specs.Rows.{element_bytes};
ghost use Rattle.buffers.specs.Writers.{Fits, NumberFits, Wrote};

// Every byte of the part is set to the byte given.
pub fn fill(part: &mut [u8], byte: u8)
    ensures { part.new ≡ replicate (length part.old) byte }
{
    part.fill(byte);
}

// A lent area and the place up to which it is written.
#[derive(Drop)]
pub struct Writer<'a> {
    pub out: &'a mut [u8],
    pub at: usize,
}

impl<'a> Writer<'a> {
    // A writer of the area from its front on.
    pub fn new(out: &'a mut [u8]) -> Writer<'a>
        ensures same_area { result.out.ghost_name ≡ out.entry.ghost_name }
        ensures area { result.out.now ≡ out.old }
        ensures front { result.at ≡ 0 }
    {
        Writer { out, at: 0 }
    }

    // Writes a byte.
    pub fn put(&mut self, byte: u8)
        requires { Fits (byte ∷ []) self.old }
        ensures { Wrote (byte ∷ []) self.old self.new }
    {
        self.out[self.at] = byte;
        self.at += 1;
    }

    // Writes a word.
    pub fn put_bytes(&mut self, word: &[u8])
        requires { Fits word.now self.old }
        ensures { Wrote word.now self.old self.new }
    {
        let next = self.at + word.len();
        self.out[self.at..next].copy_from_slice(word);
        self.at = next;
    }

    // Writes the W lowest of a number's four bytes, the lowest first.
    #[tactic(auto, using(crate::proofs::LowBytes::low_first, basics::specs::Bytes::length_bytes))]
    pub fn put_number<const W: usize>(&mut self, n: u32)
        requires { NumberFits W n self.old }
        ensures { Wrote (bytes_of W n) self.old self.new }
    {
        self.put_bytes(&n.to_le_bytes()[..W]);
    }

    // Writes the numbers of a list, each as four bytes.
    pub fn put_numbers(&mut self, numbers: &[u16])
        requires { Fits (element_bytes 4 numbers.now) self.old }
        ensures { Wrote (element_bytes 4 numbers.now) self.old self.new }
    {
        for &number in numbers {
            self.put_number::<4>(u32::from(number));
        }
    }
}
