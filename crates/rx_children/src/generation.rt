// Of which generation an element is: 0 if it is the committed one, given again, and one more with each body that made it from
// one that was made anew.
ghost use Rattle.std.specs.Prelude.{◌≡◌};
ghost use Rattle.rx_meaning.specs.Generations.{generation_below, given_to, made_by, own_generation};

/// The generation of an element by that of its place: one that is another than the committed one was made anew.
pub fn own_generation(again: bool, generation: u32) -> u32
    ensures { result ≡ own_generation again generation }
{
    if again { 0 } else { generation.max(1) }
}

// The generation of what the body of a component makes, by that of the component's own element.
fn made_by(generation: u32) -> u32
    ensures { result ≡ made_by generation }
{
    generation.saturating_add(1)
}

// The generation of what stands for `children` in what a body made, by that of the list: that of the component's own element.
fn given_to(generation: u32) -> u32
    ensures { result ≡ given_to generation }
{
    generation.saturating_sub(1)
}

/// The generation of a node's children, by whether a body was evaluated, whether the node's element was given again, whether it
/// is a list that stands for `children`, and the generation of its place.
pub fn generation_below(evaluated: bool, again: bool, for_children: bool, generation: u32) -> u32
    ensures { result ≡ generation_below evaluated again for_children generation }
{
    let own = own_generation(again, generation);
    if evaluated {
        made_by(own)
    } else if for_children {
        given_to(own)
    } else {
        own
    }
}
