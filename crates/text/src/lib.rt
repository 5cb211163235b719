// Text put into a lent buffer: a pen, and what it puts there, bytes, numbers and lines of numbers. The rest of the buffer keeps what it
// holds. That a text fits is required of each text, and no invariant of the pen, which does not know what comes.
#![tactic(auto)]

ghost use Rattle.std.specs.Prelude.{◌<◌, length};
ghost use Rattle.text.specs.Text.{decimal, others, line, labelled};
ghost use Rattle.text.specs.Written.{LongEnough, Put};

use itoa::Buffer;

// The place in a buffer where the next text goes. It is made by a literal: a constructor would need three clauses, where it is made eight times.
#[derive(Drop)]
pub struct Pen<'a, T> {
    pub buffer: &'a mut [T],
    pub at: usize,
}

impl<T: Copy> Pen<'_, T> {
    // A text as it is.
    pub fn put(&mut self, text: &[T])
        requires { LongEnough text.now self.old }
        ensures { Put text.now self.old self.new }
    {
        let end = self.at + text.len();
        self.buffer[self.at..end].copy_from_slice(text);
        self.at = end;
    }
}

impl Pen<'_, u8> {
    // A number in decimal digits. Inlined: by a call of its own a tree with numbers of one digit took up to 1.09 times as long to write.
    #[inline]
    pub fn put_number(&mut self, n: u64)
        requires { LongEnough (decimal n) self.old }
        ensures { Put (decimal n) self.old self.new }
    {
        let mut buffer = Buffer::new();
        let digits = buffer.format(n).as_bytes();
        self.put(digits);
    }

    // The rest of a line: a blank before each number, then the line end.
    pub fn put_others(&mut self, numbers: &[u64])
        requires { LongEnough (others numbers.now) self.old }
        ensures { Put (others numbers.now) self.old self.new }
    {
        for n in numbers {
            self.put(b" ");
            self.put_number(*n);
        }
        self.put(b"\n");
    }

    // A line of at least one number.
    pub fn put_line(&mut self, numbers: &[u64])
        requires { (0 < length numbers.now) × LongEnough (line numbers.now) self.old }
        ensures { Put (line numbers.now) self.old self.new }
    {
        self.put_number(numbers[0]);
        self.put_others(&numbers[1..]);
    }

    // A line that begins with a word.
    pub fn put_labelled(&mut self, label: &[u8], numbers: &[u64])
        requires { LongEnough (labelled label.now numbers.now) self.old }
        ensures { Put (labelled label.now numbers.now) self.old self.new }
    {
        self.put(label);
        self.put_others(numbers);
    }
}
