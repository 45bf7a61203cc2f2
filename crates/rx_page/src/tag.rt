// The names of elements and attributes.
ghost use Rattle.std.specs.Prelude.{◌≡◌};
ghost use Rattle.rx_page.specs.Elements.{attribute_text, tag_text};

/// An element, by what it is for.
#[derive(Clone, Copy, Debug, PartialEq, Eq)]
pub enum Tag {
    Document,
    Head,
    Title,
    Style,
    Body,
    TopHeading,
    Navigation,
    Main,
    Division,
    Script,
    Section,
    Heading,
    Figure,
    Caption,
    Preformatted,
    Code,
    Paragraph,
    OrderedList,
    Item,
    Link,
    Details,
    Summary,
    Table,
    TableCaption,
    Row,
    HeaderCell,
    Cell,
    Span,
    Small,
    Strong,
    Inserted,
    Deleted,
    Mark,
}

impl Tag {
    /// Its name.
    pub fn name(self) -> &'static str
        ensures { result.now ≡ tag_text self }
    {
        match self {
            Tag::Document => "html",
            Tag::Head => "head",
            Tag::Title => "title",
            Tag::Style => "style",
            Tag::Body => "body",
            Tag::TopHeading => "h1",
            Tag::Navigation => "nav",
            Tag::Main => "main",
            Tag::Division => "div",
            Tag::Script => "script",
            Tag::Section => "section",
            Tag::Heading => "h2",
            Tag::Figure => "figure",
            Tag::Caption => "figcaption",
            Tag::Preformatted => "pre",
            Tag::Code => "code",
            Tag::Paragraph => "p",
            Tag::OrderedList => "ol",
            Tag::Item => "li",
            Tag::Link => "a",
            Tag::Details => "details",
            Tag::Summary => "summary",
            Tag::Table => "table",
            Tag::TableCaption => "caption",
            Tag::Row => "tr",
            Tag::HeaderCell => "th",
            Tag::Cell => "td",
            Tag::Span => "span",
            Tag::Small => "small",
            Tag::Strong => "b",
            Tag::Inserted => "ins",
            Tag::Deleted => "del",
            Tag::Mark => "mark",
        }
    }
}

/// An attribute, by what it tells.
#[derive(Clone, Copy, Debug, PartialEq, Eq)]
pub enum AttributeName {
    Id,
    Class,
    Href,
    LabelledBy,
    TabIndex,
    Lang,
    Scope,
    Start,
    Charset,
    NameOf,
    HttpEquiv,
    Content,
}

impl AttributeName {
    /// Its name.
    pub fn name(self) -> &'static str
        ensures { result.now ≡ attribute_text self }
    {
        match self {
            AttributeName::Id => "id",
            AttributeName::Class => "class",
            AttributeName::Href => "href",
            AttributeName::LabelledBy => "aria-labelledby",
            AttributeName::TabIndex => "tabindex",
            AttributeName::Lang => "lang",
            AttributeName::Scope => "scope",
            AttributeName::Start => "start",
            AttributeName::Charset => "charset",
            AttributeName::NameOf => "name",
            AttributeName::HttpEquiv => "http-equiv",
            AttributeName::Content => "content",
        }
    }
}
