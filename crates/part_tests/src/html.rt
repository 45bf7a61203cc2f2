// That calls succeed with memory at hand, and what a hostile text becomes.
use rx_page::*;
use std::test::Fail;

#[test]
fn an_element_holds_what_it_is_given(rt: HostRuntime) -> Result<(), Fail> {
    let alloc = rt.alloc();
    let mut attributes = Attributes::new(alloc);
    attributes.put(AttributeName::Id, b"a\"b'c")?;
    let mut content = Html::new(alloc);
    content.put_text(b"</script> & <b>")?;
    let mut html = Html::new(alloc);
    html.put_element(Tag::Code, &attributes, &content)?;
    html.put(&content)?;
    assert_eq!(rt;
        html.bytes(),
        b"<code id=\"a&quot;b&#39;c\">&lt;/script&gt; &amp; &lt;b&gt;</code>&lt;/script&gt; &amp; &lt;b&gt;".as_slice()
    );
    Ok(())
}

#[test]
fn a_change_shows_what_goes_and_what_comes(rt: HostRuntime) -> Result<(), Fail> {
    let alloc = rt.alloc();
    let mut html = Html::new(alloc);
    put_changes(&mut html, alloc, b"a\n1\nb\n", b"a\n2\nb\n")?;
    assert_eq!(rt;
        html.bytes(),
        b"<span>a\n</span><del><b>gone </b>1\n</del><ins><b>new </b>2\n</ins><span>b\n</span>".as_slice()
    );
    let mut meta = Attributes::new(alloc);
    meta.put(AttributeName::Charset, b"utf-8")?;
    let mut head = Html::new(alloc);
    head.put_meta(&meta)?;
    assert_eq!(rt; head.bytes(), b"<meta charset=\"utf-8\">".as_slice());
    Ok(())
}
