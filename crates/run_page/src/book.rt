// The links and sections of a page, step by step.
ghost use Rattle.std.specs.Prelude.{◌≡◌, ◌+◌, ◌<◌, ◌^◌, ◌++◌, ◌∷◌, [], List, OnOk};
ghost use Rattle.run_page.specs.Views as views;
ghost use Rattle.run_page.specs.Views.{shown};
ghost use Rattle.run_page.specs.Books.{Adds, AreTold, empty_book, link};

use crate::facts::put_table;
use crate::marks::{put_marks, put_yield};
use crate::section::{put_lines, put_numbered, put_section};
use crate::told::Told;
use crate::view::View;
use rx_page::{AttributeName, Attributes, Html, Tag, put_words};
use std::alloc::{AllocError, Global};
use std::marker::Model;

/// The links and the sections of the steps so far. The first one shows what is there before the first step.
#[derive(Drop)]
pub struct Book {
    alloc: Global,
    links: Html,
    sections: Html,
    count: u64,
    tree: Told,
    hooks: Told,
}

impl Model for Book {
    ghost use Rattle.run_page.specs.Books as books;

    ghost Value = { books.Book };

    ghost view = { λ b. record { links = b.links; sections = b.sections; count = b.count; tree = b.tree; hooks = b.hooks } };
}

// The place of a step on the timeline.
fn put_link(html: &mut Html, alloc: Global, number: u64, view: &View) -> Result<(), AllocError>
    ensures { OnOk result (html.new ≡ html.old ++ link number (shown view.now)) }
{
    let mut words = Html::new(alloc);
    put_words(&mut words, alloc, Tag::Code, &view.title)?;
    let mut href = Attributes::new(alloc);
    put_numbered(&mut href, alloc, AttributeName::Href, b"#step-", number)?;
    let mut item = Html::new(alloc);
    item.put_element(Tag::Link, &href, &words)?;
    put_marks(&mut item, alloc, &view.lines)?;
    put_yield(&mut item, alloc, view.yields)?;
    html.put_element(Tag::Item, &Attributes::new(alloc), &item)
}

impl Book {
    /// No step yet.
    pub fn new(alloc: Global) -> Book
        ensures empty { result ≡ empty_book }
        ensures none { AreTold [] result }
    {
        Book {
            alloc,
            links: Html::new(alloc),
            sections: Html::new(alloc),
            count: 0,
            tree: Told::new(alloc),
            hooks: Told::new(alloc),
        }
    }

    /// How many steps there are.
    pub fn count(&self) -> u64
        ensures { result ≡ self.now.count }
    {
        self.count
    }

    /// The links of the steps, which stand on a timeline.
    pub fn links(&self) -> &Html
        ensures { result.now ≡ self.now.links }
    {
        &self.links
    }

    /// The sections of the steps.
    pub fn sections(&self) -> &Html
        ensures { result.now ≡ self.now.sections }
    {
        &self.sections
    }

    /// One step more.
    ///
    /// # Errors
    ///
    /// Only if out of memory. Some of the step may be there then, so no page is to be made of it.
    pub fn put(&mut self, view: &View) -> Result<(), AllocError>
        requires { self.old.count < 2 ^ 63 }
        ensures adds { OnOk result (Adds (shown view.now) self.old self.new) }
        ensures told { OnOk result ((before : List views.View) → AreTold before self.old → AreTold (before ++ shown view.now ∷ []) self.new) }
    {
        let number = self.count;
        let mut panes = Html::new(self.alloc);
        put_lines(&mut panes, self.alloc, view)?;
        put_table(&mut panes, self.alloc, &view.facts)?;
        self.tree.put(
            &mut panes,
            self.alloc,
            b"tree",
            b"Tree of hosts",
            number,
            &view.tree,
        )?;
        self.hooks.put(
            &mut panes,
            self.alloc,
            b"hooks",
            b"Hooks",
            number,
            &view.hooks,
        )?;
        put_link(&mut self.links, self.alloc, number, view)?;
        put_section(&mut self.sections, self.alloc, number, &view.title, &panes)?;
        self.count += 1;
        Ok(())
    }
}
