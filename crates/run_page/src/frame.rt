// The page around its links and sections.
ghost use Rattle.std.specs.Prelude.{◌≡◌, ◌++◌, IfOk, OnOk};
ghost use Rattle.rx_page.specs.Elements.{attribute, element, meta};
ghost use Rattle.rx_page.specs.Escaping.{escaped};
ghost use Rattle.rx_page.specs.declared.tag.Tag.{Tag};
ghost use Rattle.rx_page.specs.declared.tag.AttributeName.{AttributeName};
ghost use Rattle.run_page.specs.Frames.{body as body_of, columns, details, document as document_of, head as head_of, page as page_of, timeline};

use crate::book::Book;
use crate::facts::one_attribute;
use rx_page::{AttributeName, Attributes, Html, Tag, put_words};
use std::alloc::{AllocError, Global};

// What a page may load: its own style and its own script.
const POLICY: &[u8] = b"default-src 'none'; style-src 'unsafe-inline'; script-src 'unsafe-inline'";

const INTRODUCTION: &[u8] =
    b"Each step of the script has a section: the lines of the report that it writes, the lanes and the \
render in progress after it, the tree of hosts and the hooks. Lines that came and lines that are gone are marked.";

const KEYS: &[u8] = b"A step is chosen in the list, or by the left and right arrow keys.";

/// The style of a page. No byte of it is one that is escaped, so that it stands in the page as it is here.
pub const STYLE: &[u8] = b"
:root { color-scheme: light dark; }
body { margin: 0 auto; max-width: 75em; padding: 0 1em 2em; font-family: sans-serif; line-height: 1.4; }
pre, code { font-family: monospace; font-size: 1em; white-space: pre-wrap; overflow-wrap: anywhere; }
pre { margin: 0; padding: 0.5em; border: 1px solid; }
figure { margin: 0 0 1em; }
figcaption, caption { font-weight: bold; text-align: left; }
figure p { margin: 0; }
table { border-collapse: collapse; margin: 0 0 1em; }
th, td { border: 1px solid; padding: 0.2em 0.5em; text-align: left; vertical-align: top; font-weight: normal; }
ins, del, pre small, pre span { display: block; font-size: 1em; }
ins { border-left: 0.4em solid; padding-left: 0.3em; font-weight: bold; text-decoration: none; }
del { border-left: 0.4em dotted; padding-left: 0.3em; }
ins b, del b { float: right; font-weight: normal; font-style: italic; text-decoration: none; }
pre small { font-style: italic; }
mark { background: none; color: inherit; border: 1px solid; border-radius: 0.3em; padding: 0 0.3em; font-size: 0.85em; display: inline-block; overflow-wrap: anywhere; }
mark.commit { border-width: 1px 1px 1px 0.5em; }
mark.defer { border-style: dashed; }
mark.yield { border-style: dotted; }
nav h2 { margin: 0.3em 0.5em; font-size: 1.1em; }
nav ol { margin: 0; padding-left: 4em; border-left: 3px solid; }
nav li { padding-left: 0.2em; }
nav a[aria-current] { font-weight: bold; outline: 2px solid; }
section:focus { outline: none; }
section h2 { border-bottom: 1px solid; overflow-wrap: anywhere; }
@media screen {
.stepping section:not(.current) { display: none; }
nav { max-height: 30vh; overflow: auto; border: 1px solid; }
}
@media screen and (min-width: 50em) {
.columns { display: grid; grid-template-columns: 20em minmax(0, 1fr); gap: 1em; align-items: start; }
nav { position: sticky; top: 0; max-height: 100vh; box-sizing: border-box; }
}
@media print {
figure, table { break-inside: avoid; }
.keys { display: none; }
}
";

/// The script of a page, without a byte that is escaped.
pub const SCRIPT: &[u8] = b"
(function () {
  var sections = Array.from(document.querySelectorAll(`section`));
  var links = Array.from(document.querySelectorAll(`nav ol a`));
  var snapshots = { tree: [[]], hooks: [[]] };
  function lines(text) { return text === `` ? [] : text.split(/^/m); }
  function own(piece) { return piece.lastChild ? lines(piece.lastChild.data) : []; }
  function left_out(piece) {
    if (piece.count === undefined) { piece.count = parseInt(piece.textContent.split(`: `)[1], 10); }
    return piece.count;
  }
  function panes(at, kind) { return sections[at].querySelector(`figure.` + kind); }
  function apply(before, pre, each) {
    var after = [], at = 0;
    Array.from(pre.children).forEach(function (piece) {
      var its = piece.localName === `small` ? before.slice(at, at + left_out(piece)) : own(piece);
      if (each) { each(piece, its); }
      if (piece.localName !== `ins`) { at += its.length; }
      if (piece.localName !== `del`) { its.forEach(function (line) { after.push(line); }); }
    });
    return after;
  }
  function pieces(at, kind) { return panes(at, kind).querySelector(`pre:not(.whole)`); }
  function text_before(at, kind) {
    var known = snapshots[kind];
    var from = Math.min(Math.floor(at / 64), known.length - 1);
    var text = known[from];
    for (var i = from * 64; i !== at; i += 1) {
      var pre = pieces(i, kind);
      if (pre) { text = apply(text, pre); }
      if ((i + 1) % 64 === 0) { known[(i + 1) / 64] = text; }
    }
    return text;
  }
  function open_pane(at, kind) {
    var text = text_before(at, kind);
    var pre = pieces(at, kind);
    if (pre) {
      apply(text, pre, function (piece, its) { if (piece.localName === `small`) { piece.textContent = its.join(``); } });
    } else {
      var whole = document.createElement(`pre`);
      whole.className = `whole`;
      whole.textContent = text.join(``);
      panes(at, kind).appendChild(whole);
    }
  }
  function close_pane(at, kind) {
    var pre = pieces(at, kind);
    if (pre) {
      Array.from(pre.querySelectorAll(`small`)).forEach(function (piece) { piece.textContent = `lines as before: ` + piece.count + String.fromCharCode(10); });
    } else {
      panes(at, kind).querySelector(`pre.whole`).remove();
    }
  }
  function place() {
    return Math.max(0, sections.findIndex(function (it) { return `#` + it.id === location.hash; }));
  }
  var shown = -1;
  function show() {
    var at = place();
    if (at === shown) { return; }
    if (shown !== -1) {
      sections[shown].classList.remove(`current`);
      links[shown].removeAttribute(`aria-current`);
      close_pane(shown, `tree`);
      close_pane(shown, `hooks`);
    }
    shown = at;
    open_pane(at, `tree`);
    open_pane(at, `hooks`);
    sections[at].classList.add(`current`);
    links[at].setAttribute(`aria-current`, `step`);
    links[at].scrollIntoView({ block: `nearest` });
  }
  window.addEventListener(`hashchange`, function () { show(); sections[shown].focus(); });
  window.addEventListener(`keydown`, function (event) {
    var by = { ArrowLeft: -1, ArrowRight: 1 }[event.key];
    if (!by) { return; }
    if ([event.altKey, event.ctrlKey, event.metaKey, event.shiftKey].includes(true)) { return; }
    var next = sections[shown + by];
    if (next) { location.hash = next.id; event.preventDefault(); }
  });
  document.documentElement.className = `stepping`;
  show();
})();
";

// A tag that tells something about the page, by two attributes.
fn put_two(
    html: &mut Html,
    alloc: Global,
    first: AttributeName,
    value: &[u8],
    second: AttributeName,
    other: &[u8],
) -> Result<(), AllocError>
    ensures { OnOk result (html.new ≡ html.old ++ meta (attribute first value.now ++ attribute second other.now)) }
{
    let mut attributes = one_attribute(alloc, first, value)?;
    attributes.put(second, other)?;
    html.put_meta(&attributes)
}

// The head of a page.
fn head(alloc: Global) -> Result<Html, AllocError>
    ensures { IfOk result (λ html. html ≡ head_of) }
{
    let mut html = Html::new(alloc);
    html.put_meta(&one_attribute(alloc, AttributeName::Charset, b"utf-8")?)?;
    put_two(
        &mut html,
        alloc,
        AttributeName::NameOf,
        b"viewport",
        AttributeName::Content,
        b"width=device-width, initial-scale=1",
    )?;
    put_two(
        &mut html,
        alloc,
        AttributeName::HttpEquiv,
        b"Content-Security-Policy",
        AttributeName::Content,
        POLICY,
    )?;
    put_words(&mut html, alloc, Tag::Title, b"A run, step by step")?;
    put_words(&mut html, alloc, Tag::Style, STYLE)?;
    Ok(html)
}

// The input, as it stands, which is opened by a click.
fn put_input(html: &mut Html, alloc: Global, input: &[u8]) -> Result<(), AllocError>
    ensures { OnOk result (html.new ≡ html.old ++ details input.now) }
{
    let mut content = Html::new(alloc);
    put_words(&mut content, alloc, Tag::Summary, b"The input")?;
    put_words(&mut content, alloc, Tag::Preformatted, input)?;
    html.put_element(Tag::Details, &Attributes::new(alloc), &content)
}

// An element with one attribute.
fn put_with(
    html: &mut Html,
    alloc: Global,
    tag: Tag,
    name: AttributeName,
    value: &[u8],
    content: &Html,
) -> Result<(), AllocError>
    ensures { OnOk result (html.new ≡ html.old ++ element tag (attribute name value.now) content.now) }
{
    let attributes = one_attribute(alloc, name, value)?;
    html.put_element(tag, &attributes, content)
}

// An element with one attribute, which holds a text.
fn put_words_with(
    html: &mut Html,
    alloc: Global,
    tag: Tag,
    name: AttributeName,
    value: &[u8],
    text: &[u8],
) -> Result<(), AllocError>
    ensures { OnOk result (html.new ≡ html.old ++ element tag (attribute name value.now) (escaped text.now)) }
{
    let mut content = Html::new(alloc);
    content.put_text(text)?;
    put_with(html, alloc, tag, name, value, &content)
}

// The script of the run as a timeline.
fn put_timeline(html: &mut Html, alloc: Global, links: &Html) -> Result<(), AllocError>
    ensures { OnOk result (html.new ≡ html.old ++ timeline links.now) }
{
    let mut content = Html::new(alloc);
    put_words_with(
        &mut content,
        alloc,
        Tag::Heading,
        AttributeName::Id,
        b"script",
        b"Script and timeline",
    )?;
    put_with(
        &mut content,
        alloc,
        Tag::OrderedList,
        AttributeName::Start,
        b"0",
        links,
    )?;
    put_with(
        html,
        alloc,
        Tag::Navigation,
        AttributeName::LabelledBy,
        b"script",
        &content,
    )
}

// The timeline beside the sections.
fn put_columns(html: &mut Html, alloc: Global, book: &Book) -> Result<(), AllocError>
    ensures { OnOk result (html.new ≡ html.old ++ columns book.now.links book.now.sections) }
{
    let mut content = Html::new(alloc);
    put_timeline(&mut content, alloc, book.links())?;
    content.put_element(Tag::Main, &Attributes::new(alloc), book.sections())?;
    put_with(
        html,
        alloc,
        Tag::Division,
        AttributeName::Class,
        b"columns",
        &content,
    )
}

// The body of a page.
fn put_body(html: &mut Html, alloc: Global, input: &[u8], book: &Book) -> Result<(), AllocError>
    ensures { OnOk result (html.new ≡ html.old ++ body_of input.now book.now.links book.now.sections) }
{
    put_words(html, alloc, Tag::TopHeading, b"A run, step by step")?;
    put_words(html, alloc, Tag::Paragraph, INTRODUCTION)?;
    put_words_with(
        html,
        alloc,
        Tag::Paragraph,
        AttributeName::Class,
        b"keys",
        KEYS,
    )?;
    put_input(html, alloc, input)?;
    put_columns(html, alloc, book)?;
    put_words(html, alloc, Tag::Script, SCRIPT)
}

// The whole of a page, without what stands before it.
fn document(alloc: Global, input: &[u8], book: &Book) -> Result<Html, AllocError>
    ensures { IfOk result (λ html. html ≡ document_of input.now book.now.links book.now.sections) }
{
    let mut body = Html::new(alloc);
    put_body(&mut body, alloc, input, book)?;
    let mut parts = Html::new(alloc);
    parts.put_element(Tag::Head, &Attributes::new(alloc), &head(alloc)?)?;
    parts.put_element(Tag::Body, &Attributes::new(alloc), &body)?;
    let mut html = Html::new(alloc);
    put_with(
        &mut html,
        alloc,
        Tag::Document,
        AttributeName::Lang,
        b"en",
        &parts,
    )?;
    Ok(html)
}

/// The page of an input with the steps of its run.
///
/// # Errors
///
/// Only if out of memory.
pub fn page(alloc: Global, input: &[u8], book: &Book) -> Result<Vec<u8>, AllocError>
    ensures { IfOk result (λ page. page.items ≡ page_of input.now book.now.links book.now.sections) }
{
    let mut page = Vec::from_slice(alloc, b"<!DOCTYPE html>\n")?;
    page.extend_from_slice(document(alloc, input, book)?.bytes())?;
    Ok(page)
}
