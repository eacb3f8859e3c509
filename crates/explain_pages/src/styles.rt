//! The style sheets of pictures and pages. Their colours have enough contrast in light and dark
//! mode.

/// The style sheet of a picture, alone or in a page. Each rule names its colours, since viewers
/// that aren't browsers know no CSS variables. Such a viewer shows the light colours.
// A style sheet applies to the whole page around its picture, so each rule names the class.
pub(crate) const PICTURE: &str = r#"<style>
.hilfrogwy{color:#17202b;background:#fff;font-family:system-ui,-apple-system,"Segoe UI",Roboto,sans-serif;font-size:13px}
.hilfrogwy text{fill:#17202b}
.hilfrogwy .soft{fill:#556070}
.hilfrogwy .head{font-size:19px;font-weight:600}
.hilfrogwy .end{text-anchor:end}
.hilfrogwy .middle{text-anchor:middle}
.hilfrogwy .paper{fill:#fff}
.hilfrogwy path{fill:none;stroke:#17202b}
.hilfrogwy .grid{stroke:#dfe4ea}
.hilfrogwy .day{stroke:#556070}
.hilfrogwy .area{fill:#17202b;fill-opacity:.07;stroke:none}
.hilfrogwy .limit{stroke-width:4;stroke-linejoin:round}
.hilfrogwy .line{stroke-width:2}
.hilfrogwy .ceiling{stroke:#556070;stroke-width:1.5;stroke-dasharray:4 4}
.hilfrogwy .whole{stroke-width:2.5;stroke-dasharray:12 6}
.hilfrogwy .letter{font-weight:600;font-size:12px;paint-order:stroke;stroke:#fff;stroke-width:4px}
.hilfrogwy .cause{fill:#17202b;fill-opacity:.07;stroke:#556070}
.hilfrogwy .odd{fill:none}
.hilfrogwy .name{font-size:12px;text-anchor:middle}
.hilfrogwy .c0{stroke:#0b5fa5}.hilfrogwy .c1{stroke:#a8480b}.hilfrogwy .c2{stroke:#1d7a3e}
.hilfrogwy .c3{stroke:#8a2a8f}.hilfrogwy .c4{stroke:#7d5d00}.hilfrogwy .c5{stroke:#b3261e}
.hilfrogwy .d0{stroke-dasharray:9 4}.hilfrogwy .d1{stroke-dasharray:2 3}.hilfrogwy .d2{stroke-dasharray:14 4 2 4}.hilfrogwy .d3{stroke-dasharray:5 5}
.hilfrogwy .d4{stroke-dasharray:16 5}.hilfrogwy .d5{stroke-dasharray:8 3 2 3 2 3}.hilfrogwy .d6{stroke-dasharray:3 7}.hilfrogwy .d7{stroke-dasharray:4 2 1 2}
@media (prefers-color-scheme:dark){
.hilfrogwy{color:#edf1f6;background:#14181e}
.hilfrogwy text{fill:#edf1f6}
.hilfrogwy .soft{fill:#a9b4c2}
.hilfrogwy .paper{fill:#14181e}
.hilfrogwy path{stroke:#edf1f6}
.hilfrogwy .grid{stroke:#2c343f}
.hilfrogwy .day,.hilfrogwy .ceiling{stroke:#a9b4c2}
.hilfrogwy .area{fill:#edf1f6;fill-opacity:.1;stroke:none}
.hilfrogwy .letter{stroke:#14181e}
.hilfrogwy .cause{fill:#edf1f6;fill-opacity:.1;stroke:#a9b4c2}
.hilfrogwy .odd{fill:none}
.hilfrogwy .c0{stroke:#7ab8f5}.hilfrogwy .c1{stroke:#f0a36b}.hilfrogwy .c2{stroke:#7fd39a}
.hilfrogwy .c3{stroke:#d99be0}.hilfrogwy .c4{stroke:#e3c25a}.hilfrogwy .c5{stroke:#f28b82}
}
</style>
"#;

/// The style sheet of a page.
pub(crate) const PAGE: &str = r#"<style>
:root{color-scheme:light dark;--paper:#fff;--ink:#17202b;--soft:#556070;--rule:#cfd6de}
@media (prefers-color-scheme:dark){:root{--paper:#14181e;--ink:#edf1f6;--soft:#a9b4c2;--rule:#3a4452}}
body{margin:0 auto;max-width:62rem;padding:1rem;background:var(--paper);color:var(--ink);font:16px/1.45 system-ui,-apple-system,"Segoe UI",Roboto,sans-serif}
h1{font-size:1.4rem;margin:.5rem 0}
h2{font-size:1.1rem;margin:1.5rem 0 .5rem}
figure{margin:1rem 0;overflow-x:auto}
figure svg{display:block;width:100%;min-width:40rem;height:auto}
.wide{overflow-x:auto}
table{border-collapse:collapse;width:100%}
caption{text-align:left;color:var(--soft);padding:.3rem 0}
th,td{text-align:left;vertical-align:top;padding:.3rem .8rem .3rem 0;border-bottom:1px solid var(--rule)}
thead th{border-bottom:2px solid var(--soft)}
tbody th{font-weight:400}
.number{text-align:right;padding-right:1.6rem;white-space:nowrap;font-variant-numeric:tabular-nums}
</style>
"#;
