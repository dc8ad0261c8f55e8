//! How the texts of a query's files are written.

/// How the texts of a query's files are written.
#[derive(Clone, Copy, Debug)]
pub struct CsvForm<'t> {
    pub separator: u8,
    pub quote: Option<u8>,
    pub eol: u8,
    pub comment: Option<&'t str>,
    pub has_header: bool,
    pub null_text: &'t str,
}

impl<'t> CsvForm<'t> {
    /// Commas, double quotes, line feeds, a header, and nulls that are empty.
    pub fn standard() -> CsvForm<'t> {
        CsvForm {
            separator: b',',
            quote: Some(b'"'),
            eol: b'\n',
            comment: None,
            has_header: true,
            null_text: "",
        }
    }

    /// Whether a field that begins with this byte is quoted.
    pub fn is_quote(self, byte: u8) -> bool {
        match self.quote {
            Some(quote) => byte == quote,
            None => false,
        }
    }

    /// Whether a field without quotes ends before this byte.
    pub fn stops(self, byte: u8) -> bool {
        byte == self.separator || byte == self.eol
    }
}
