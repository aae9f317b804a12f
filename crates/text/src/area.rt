// A text in a lent area, and bytes put in front of it.
ghost use Rattle.std.specs.Prelude.{◌≡◌, [], ◌∷◌, ◌≤◌, ◌<◌, length};

// The text begins at byte `begin` of the area and ends where the area ends.
#[derive(Drop)]
pub struct Text<'a> {
    pub area: &'a mut [u8],
    pub begin: usize,
    ghost within: { begin ≤ length area.now },
}

impl<'a> Text<'a> {
    ghost use Rattle.text.specs.Text.{Put};

    // The empty text at the end of an area.
    pub fn at_end(area: &'a mut [u8]) -> Text<'a>
        ensures same_reference { result.area.ghost_name ≡ area.entry.ghost_name }
        ensures unchanged { result.area.now ≡ area.old }
        ensures empty { result.begin ≡ length area.old }
    {
        let begin = area.len();
        Text { area, begin }
    }

    // Puts a byte in front of the text.
    pub fn put_byte(&mut self, b: u8)
        requires { 0 < self.old.begin }
        ensures { Put self.old (b ∷ []) self.new }
    {
        let begin = self.begin - 1;
        self.area[begin] = b;
        self.begin = begin;
    }

    // Puts bytes in front of the text.
    pub fn put_bytes(&mut self, bytes: &[u8])
        requires { length bytes.now ≤ self.old.begin }
        ensures { Put self.old bytes.now self.new }
    {
        let end = self.begin;
        let begin = end - bytes.len();
        self.area[begin..end].copy_from_slice(bytes);
        self.begin = begin;
    }
}
