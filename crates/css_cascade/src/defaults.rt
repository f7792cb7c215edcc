//! The text of the default style sheet.
ghost use Rattle.std.specs.Prelude.{◌≡◌};
ghost use Rattle.css_semantics.specs.DefaultSheet.{default_text};

/// The default style sheet, which comes before those of authors (CSS 2.1, 6.4 and appendix D).
pub fn default_sheet() -> &'static str
    ensures { result.now ≡ default_text }
{
    "html,body,div,p,h1,h2,h3,h4,h5,h6,ul,ol,dl,dt,dd,form,fieldset,legend,\n\
address,blockquote,center,hr,pre,article,aside,section,nav,header,footer,\n\
main,figure,figcaption,noframes{display:block}\n\
li{display:list-item}\n\
head,script,style,title,meta,link,base,noscript,template{display:none}\n\
button,input,select,textarea{display:inline-block}\n\
table{display:table}\n\
tr{display:table-row}\n\
td,th{display:table-cell}\n\
body{margin:8px}\n\
h1{font-size:2em;margin:.67em 0}\n\
h2{font-size:1.5em;margin:.75em 0}\n\
h3{font-size:1.17em;margin:.83em 0}\n\
h4,p,ul,ol,dl{margin:1em 0}\n\
h5{font-size:.83em;margin:1.5em 0}\n\
h6{font-size:.75em;margin:1.67em 0}\n\
blockquote,figure{margin:1em 40px}\n\
ul,ol{padding-left:40px}\n\
dd{margin-left:40px}\n\
hr{border:1px inset;margin:.5em 0}\n\
pre{white-space:pre}\n\
small,sub,sup{font-size:.83em}\n\
sub{vertical-align:sub}\n\
sup{vertical-align:super}\n\
center{text-align:center}\n\
"
}
