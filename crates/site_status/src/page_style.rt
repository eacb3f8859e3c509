//! The style sheet of a site's page, for light and dark mode with enough contrast in both, for any
//! width, and for print.

pub(crate) const STYLE: &str = r#"<style>
:root{color-scheme:light dark;--paper:#fff;--ink:#17202b;--soft:#556070;--rule:#cfd6de;--link:#0b5fa5;--warning:#a3261b}
@media (prefers-color-scheme:dark){:root{--paper:#14181e;--ink:#edf1f6;--soft:#a9b4c2;--rule:#3a4452;--link:#7ab8f5;--warning:#f28b82}}
body{margin:0 auto;max-width:90rem;padding:1rem;background:var(--paper);color:var(--ink);font:16px/1.45 system-ui,-apple-system,"Segoe UI",Roboto,sans-serif;overflow-wrap:anywhere}
h1{font-size:1.4rem;margin:.5rem 0}
h2{font-size:1.2rem;margin:0 0 .5rem;border-bottom:2px solid var(--soft)}
h3{font-size:1rem;margin:1rem 0 .25rem}
main{display:grid;grid-template-columns:repeat(auto-fill,minmax(min(100%,21rem),1fr));gap:2rem}
section{min-width:0;break-inside:avoid}
dl{display:grid;grid-template-columns:1fr;margin:0}
dl div{display:flex;justify-content:space-between;gap:1rem;border-bottom:1px solid var(--rule)}
dt{color:var(--soft)}
dd{margin:0;text-align:right;font-variant-numeric:tabular-nums}
figure{margin:0}
svg{display:block;width:100%;height:5rem}
path{fill:none;vector-effect:non-scaling-stroke}
.rule{stroke:var(--rule)}
.area{fill:var(--ink);fill-opacity:.1}
.limit{stroke:var(--ink);stroke-width:2.5}
.times{display:flex;justify-content:space-between;color:var(--soft);font-size:.8rem;font-variant-numeric:tabular-nums}
ol{list-style:none;margin:.25rem 0;padding:0}
a{color:var(--link)}
.warning{color:var(--warning);font-weight:600}
nav ul{display:flex;flex-wrap:wrap;gap:1rem;list-style:none;padding:0}
p{margin:.25rem 0}
@media print{:root{--paper:#fff;--ink:#000;--soft:#444;--rule:#bbb;--link:#000;--warning:#000}body{font-size:10pt;padding:0}}
</style>
"#;
