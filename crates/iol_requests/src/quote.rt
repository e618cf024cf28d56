//! Quotation marks in a request in words.
ghost use Rattle.std.specs.Prelude.{◌≡◌};
ghost use Rattle.iol_requests.specs.Words.{is_blank, quote_octet, quote_of, within_after, as_toml};

// A quotation mark of TOML.
#[derive(Clone, Copy, Debug, PartialEq, Eq)]
pub(crate) enum Quote {
    Single,
    Double,
}

impl Quote {
    fn octet(self) -> u8
        ensures { result ≡ quote_octet self }
    {
        match self {
            Quote::Double => b'"',
            Quote::Single => b'\'',
        }
    }

    // Returns the quotation mark that an octet is, if it is one.
    fn of(octet: u8) -> Option<Quote>
        ensures { result ≡ quote_of octet }
    {
        match octet {
            b'"' => Some(Quote::Double),
            b'\'' => Some(Quote::Single),
            _ => None,
        }
    }
}

// Returns the quotes that are open after an octet, if any.
pub(crate) fn within_after(within: Option<Quote>, octet: u8) -> Option<Quote>
    ensures { result ≡ within_after within octet }
{
    match within {
        None => Quote::of(octet),
        Some(quote) if octet == quote.octet() => None,
        Some(quote) => Some(quote),
    }
}

// Translates an octet of a request in words to TOML: outside of quotes a blank becomes a line feed.
pub(crate) fn as_toml(within: Option<Quote>, octet: u8) -> u8
    ensures { result ≡ as_toml within octet }
{
    match within {
        None if is_blank(octet) => b'\n',
        _ => octet,
    }
}

// Returns whether an octet is a space or a tab.
pub(crate) fn is_blank(octet: u8) -> bool
    ensures { result ≡ is_blank octet }
{
    octet == b' ' || octet == b'\t'
}
