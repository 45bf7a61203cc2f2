// Walks over whole elements.
ghost use Rattle.std.specs.Prelude.{◌≡◌, true};
ghost use Rattle.rx_elem.specs.Elements.{gathered, same_element, same_elements};
ghost use Rattle.rx_elem.specs.ElementSize.{held, size, size_in};

use crate::attr::same_attrs;
use crate::element::{Element, ElementKind};

#[cycle(same)]
fn same_children(ours: &[Element], theirs: &[Element]) -> bool
    ensures { result ≡ same_elements (gathered ours.now) (gathered theirs.now) }
{
    if ours.len() != theirs.len() {
        return false;
    }
    for place in 0..ours.len() {
        if !ours[place].same(&theirs[place]) {
            return false;
        }
    }
    true
}

#[cycle(size)]
fn size_of_all(elements: &[Element]) -> u64
    ensures { result ≡ held (size_in (gathered elements.now)) }
{
    let mut size: u64 = 0;
    for element in elements {
        size = size.saturating_add(element.size());
    }
    size
}

impl Element {
    /// True if both elements are equal, with all that is in them.
    #[cycle(same)]
    pub fn same(&self, other: &Element) -> bool
        ensures { result ≡ same_element self.now other.now }
    {
        match (self.kind(), other.kind()) {
            (ElementKind::Null, ElementKind::Null) => true,
            (ElementKind::Text(s), ElementKind::Text(t)) => s.text() == t.text(),
            (ElementKind::Host(m, k, attrs, es), ElementKind::Host(n, l, others, fs)) => {
                m.text() == n.text()
                    && *k == *l
                    && same_attrs(attrs, others)
                    && same_children(es, fs)
            }
            (ElementKind::Comp(c, k, props, es), ElementKind::Comp(d, l, others, fs)) => {
                *c == *d
                    && *k == *l
                    && props.as_slice() == others.as_slice()
                    && same_children(es, fs)
            }
            (ElementKind::List(mark, es), ElementKind::List(other, fs)) => {
                *mark == *other && same_children(es, fs)
            }
            (ElementKind::Boundary(k, e, es), ElementKind::Boundary(l, f, fs)) => {
                *k == *l && e.same(f) && same_children(es, fs)
            }
            (ElementKind::Catch(k, e, es), ElementKind::Catch(l, f, fs)) => {
                *k == *l && e.same(f) && same_children(es, fs)
            }
            (ElementKind::Provider(c, k, x, es), ElementKind::Provider(d, l, y, fs)) => {
                *c == *d && *k == *l && x.same(*y) && same_children(es, fs)
            }
            _ => false,
        }
    }

    /// How many elements it is, with those below it; held at the greatest `u64`.
    #[cycle(size)]
    pub fn size(&self) -> u64
        ensures { result ≡ held (size self.now) }
    {
        match self.kind() {
            ElementKind::Null | ElementKind::Text(_) => 1,
            ElementKind::Host(_, _, _, es) => size_of_all(es).saturating_add(1),
            ElementKind::Comp(_, _, _, es) => size_of_all(es).saturating_add(1),
            ElementKind::List(_, es) => size_of_all(es).saturating_add(1),
            ElementKind::Boundary(_, fallback, es) | ElementKind::Catch(_, fallback, es) => fallback
                .size()
                .saturating_add(size_of_all(es))
                .saturating_add(1),
            ElementKind::Provider(_, _, _, es) => size_of_all(es).saturating_add(1),
        }
    }
}
