ghost use Rattle.std.specs.Prelude.{◌≡◌, ◌≤◌, length};
ghost use Rattle.pt_http_reply.specs.ContentType.{type_text};

/// The format of a reply's body.
#[derive(Clone, Copy)]
pub enum ContentType {
    Json,
    /// Lines of plain text.
    Text,
    /// Comma-separated values.
    Csv,
}

impl ContentType {
    /// The media type, as in a header line.
    pub fn text(self) -> &'static str
        ensures value { result.now ≡ type_text self }
        ensures short { length result.now ≤ 16 }
    {
        match self {
            ContentType::Json => "application/json",
            ContentType::Text => "text/plain",
            ContentType::Csv => "text/csv",
        }
    }
}
