//! The octets of a TOML document between two statements: a scan of strings, comments and brackets.

/// The surroundings of an octet. The quotation mark is kept: `"`, whose texts have escapes, or `'`.
#[derive(Clone, Copy)]
enum Mode {
    Plain,
    Comment,
    /// One quotation mark came, and then two.
    One(u8),
    Two(u8),
    /// A text of one line, and the octet after a backslash in it.
    Text(u8),
    Escape(u8),
    /// A text of several lines, of which so many quotation marks may be the end, and the octet after a backslash.
    Long(u8, u8),
    LongEscape(u8),
    /// The end of such a text came. Two more quotation marks may belong to it.
    Closed(u8),
}

/// The state of a scan before an octet.
#[derive(Clone, Copy)]
pub(crate) struct Scan {
    mode: Mode,
    /// The number of brackets and braces that are open.
    depth: u32,
}

impl Scan {
    pub(crate) const START: Scan = Scan {
        mode: Mode::Plain,
        depth: 0,
    };

    fn with(self, mode: Mode) -> Scan {
        Scan {
            mode,
            depth: self.depth,
        }
    }

    /// Returns the scan after an octet outside of texts and comments.
    fn plain(self, octet: u8) -> Scan {
        let mode = match octet {
            b'"' | b'\'' => Mode::One(octet),
            b'#' => Mode::Comment,
            _ => Mode::Plain,
        };
        let depth = match octet {
            b'[' | b'{' => self.depth.saturating_add(1),
            b']' | b'}' => self.depth.saturating_sub(1),
            _ => self.depth,
        };
        Scan { mode, depth }
    }

    /// Returns the scan after an octet in a text of one line.
    fn text(self, quote: u8, octet: u8) -> Scan {
        if octet == quote {
            return self.with(Mode::Plain);
        }
        match octet {
            b'\\' if quote == b'"' => self.with(Mode::Escape(quote)),
            _ => self.with(Mode::Text(quote)),
        }
    }

    /// Returns the scan after an octet in a text of several lines.
    fn long(self, quote: u8, seen: u8, octet: u8) -> Scan {
        if octet == quote {
            return match seen {
                0 => self.with(Mode::Long(quote, 1)),
                1 => self.with(Mode::Long(quote, 2)),
                _ => self.with(Mode::Closed(quote)),
            };
        }
        match octet {
            b'\\' if quote == b'"' => self.with(Mode::LongEscape(quote)),
            _ => self.with(Mode::Long(quote, 0)),
        }
    }

    /// Returns the scan after one more octet.
    fn step(self, octet: u8) -> Scan {
        match self.mode {
            Mode::Plain => self.plain(octet),
            Mode::Comment if octet == b'\n' => self.with(Mode::Plain),
            Mode::Comment => self,
            Mode::One(quote) if octet == quote => self.with(Mode::Two(quote)),
            Mode::One(quote) => self.text(quote, octet),
            Mode::Two(quote) if octet == quote => self.with(Mode::Long(quote, 0)),
            Mode::Two(_) => self.plain(octet),
            Mode::Text(quote) => self.text(quote, octet),
            Mode::Escape(quote) => self.with(Mode::Text(quote)),
            Mode::Long(quote, seen) => self.long(quote, seen, octet),
            Mode::LongEscape(quote) => self.with(Mode::Long(quote, 0)),
            Mode::Closed(quote) if octet == quote => self,
            Mode::Closed(_) => self.plain(octet),
        }
    }

    /// Returns the scan after a line.
    pub(crate) fn after(self, line: &str) -> Scan {
        let mut scan = self;
        for octet in line.bytes() {
            scan = scan.step(octet);
        }
        scan.step(b'\n')
    }

    /// Returns whether a statement may begin here, at the beginning of a line.
    pub(crate) fn is_at_rest(self) -> bool {
        match self.mode {
            Mode::Plain => self.depth == 0,
            _ => false,
        }
    }
}
