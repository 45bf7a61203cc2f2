// A text that changes from step to step.
ghost use Rattle.std.specs.Prelude.{◌≡◌, ◌++◌, OnOk};
ghost use Rattle.run_page.specs.Told.{PutsChanged, PutsTold, kind_pane, nothing_told, same_pane, step_link};

use crate::facts::one_attribute;
use crate::section::put_numbered;
use rx_page::{AttributeName, Attributes, Html, Tag, push_number, put_changes, put_words};
use std::alloc::{AllocError, Global};
use std::marker::Model;

// Up to so many bytes a text is told anew.
const SHORT: usize = 400;

/// The text that was told last, and the step that told it.
#[derive(Drop)]
pub(crate) struct Told {
    text: Vec<u8>,
    step: u64,
}

impl Model for Told {
    ghost use Rattle.run_page.specs.Told as specs;

    ghost Value = { specs.Told };

    ghost view = { λ t. record { text = t.text.items; step = t.step } };
}

// A pane of a kind, with its caption.
fn put_kind_pane(
    html: &mut Html,
    alloc: Global,
    kind: &[u8],
    caption: &[u8],
    content: &Html,
) -> Result<(), AllocError>
    ensures { OnOk result (html.new ≡ html.old ++ kind_pane kind.now caption.now content.now) }
{
    let class = one_attribute(alloc, AttributeName::Class, kind)?;
    let mut all = Html::new(alloc);
    put_words(&mut all, alloc, Tag::Caption, caption)?;
    all.put(content)?;
    html.put_element(Tag::Figure, &class, &all)
}

// A link to a step.
fn put_step_link(html: &mut Html, alloc: Global, step: u64) -> Result<(), AllocError>
    ensures { OnOk result (html.new ≡ html.old ++ step_link step) }
{
    let mut words = Vec::from_slice(alloc, b"step ")?;
    push_number(&mut words, step)?;
    let mut content = Html::new(alloc);
    content.put_text(&words)?;
    let mut href = Attributes::new(alloc);
    put_numbered(&mut href, alloc, AttributeName::Href, b"#step-", step)?;
    html.put_element(Tag::Link, &href, &content)
}

// The pane of what is as it was told last.
fn put_same(
    html: &mut Html,
    alloc: Global,
    kind: &[u8],
    caption: &[u8],
    step: u64,
) -> Result<(), AllocError>
    ensures { OnOk result (html.new ≡ html.old ++ same_pane kind.now caption.now step) }
{
    let mut sentence = Html::new(alloc);
    sentence.put_text(b"As after ")?;
    put_step_link(&mut sentence, alloc, step)?;
    sentence.put_text(b".")?;
    let mut content = Html::new(alloc);
    content.put_element(Tag::Paragraph, &Attributes::new(alloc), &sentence)?;
    put_kind_pane(html, alloc, kind, caption, &content)
}

// The pane of what may have changed.
fn put_changed(
    html: &mut Html,
    alloc: Global,
    kind: &[u8],
    caption: &[u8],
    old: &[u8],
    new: &[u8],
) -> Result<(), AllocError>
    ensures { OnOk result (PutsChanged kind.now caption.now old.now new.now html.old html.new) }
{
    let mut pieces = Html::new(alloc);
    put_changes(&mut pieces, alloc, old, new)?;
    let mut content = Html::new(alloc);
    content.put_element(Tag::Preformatted, &Attributes::new(alloc), &pieces)?;
    put_kind_pane(html, alloc, kind, caption, &content)
}

impl Told {
    /// Nothing was told yet.
    pub(crate) fn new(alloc: Global) -> Told
        ensures { result ≡ nothing_told }
    {
        Told {
            text: Vec::new(alloc),
            step: 0,
        }
    }

    /// Tells a text: by a link if it is long and the one that was told last, and else by what changes.
    pub(crate) fn put(
        &mut self,
        html: &mut Html,
        alloc: Global,
        kind: &[u8],
        caption: &[u8],
        number: u64,
        text: &[u8],
    ) -> Result<(), AllocError>
        ensures { OnOk result (PutsTold kind.now caption.now number text.now self.old self.new html.old html.new) }
    {
        if SHORT < text.len() && text == self.text.as_slice() {
            return put_same(html, alloc, kind, caption, self.step);
        }
        let told = Vec::from_slice(alloc, text)?;
        put_changed(html, alloc, kind, caption, &self.text, text)?;
        self.text = told;
        self.step = number;
        Ok(())
    }
}
