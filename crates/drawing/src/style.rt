//! The texts at the page's head.

/// What stands before the title.
pub(crate) const HEAD: &str = "<!DOCTYPE html>
<html xmlns='http://www.w3.org/1999/xhtml' lang='en'><head><meta charset='utf-8'/>
<meta name='viewport' content='width=device-width, initial-scale=1'/><title>";

/// The style sheet. Causes, drivers and classes differ by colour and by dashes.
pub(crate) const STYLE: &str =
    ":root{color-scheme:light dark;--ground:#fff;--ink:#1c2126;--soft:#545d67;--line:#c9cfd6;--head:#f4f6f8;--link:#0b5cad;
--er:#c62f2f;--ca:#a86600;--az:#8553b5;--ds:#8553b5;--as:#a0437f;--ls:#6b4fd0;--df:#2274b5;--af:#14806a;--lf:#b03a86;--na:#767f88;--h:#8a6a45;
--c0:#1f6fb2;--c1:#b3541e;--c2:#2e7d32;--c3:#8e3b9e;--c4:#00798c;--c5:#b8326b;--c6:#6b6b00;--c7:#4d5bc4;--c8:#70757a}
@media(prefers-color-scheme:dark){:root{--ground:#15191d;--ink:#e6eaee;--soft:#a3adb8;--line:#3f4750;--head:#1f252a;--link:#7cb8f5;
--er:#ef6b62;--ca:#f0ad3c;--az:#b48be0;--ds:#b48be0;--as:#e08cc0;--ls:#9a86f0;--df:#5aa9e6;--af:#3fbf9f;--lf:#e57fc0;--na:#8d97a1;--h:#c8a882;
--c0:#6cb2f0;--c1:#f0955a;--c2:#77c57b;--c3:#d08be0;--c4:#4cc3d6;--c5:#f27fae;--c6:#c9c24e;--c7:#9aa5ff;--c8:#a0a6ab}}
*{box-sizing:border-box}
body{margin:0;background:var(--ground);color:var(--ink);font:15px/1.45 system-ui,sans-serif;overflow-wrap:break-word}
main{max-width:1400px;margin:0 auto;padding:16px 24px}
h1{font-size:22px;margin:0 0 8px}h2{font-size:18px;margin:28px 0 8px}h3{font-size:15px;margin:20px 0 4px}
p{margin:0 0 8px;max-width:80ch}
a{color:var(--link)}
:focus-visible{outline:3px solid var(--link);outline-offset:2px}
#totals,#weights{display:flex;flex-wrap:wrap;gap:8px 28px;margin:12px 0}
#totals dt,#weights dt{color:var(--soft);font-size:13px}
#totals dd,#weights dd{margin:0;font-size:20px;font-variant-numeric:tabular-nums}
.legend{list-style:none;display:flex;flex-wrap:wrap;gap:4px 20px;margin:0 0 8px;padding:0}
.legend li{display:flex;flex-wrap:wrap;align-items:center;gap:2px 6px}
fieldset{border:1px solid var(--line);margin:0 0 8px;padding:4px 12px;display:flex;flex-wrap:wrap;gap:4px 20px;max-width:40em}
label{padding:4px 0}
.chart,.axis,.row svg{display:block;width:100%}
.row svg{background:var(--head);overflow:hidden}
.axis{margin-bottom:6px}.row .axis{background:none}
.axis text{font-size:11px;fill:var(--soft)}
.row{display:grid;grid-template-columns:13em minmax(0,1fr);gap:2px 12px;margin:0 0 4px;align-items:start}
.row .label{margin:0;font-size:13px;line-height:1.2}
.shared .label{color:var(--soft)}
.q,.needed{fill:var(--df)}.idle{fill:var(--ca)}.order{fill:var(--er)}.used{fill:var(--h)}
.cap{fill:none;stroke:var(--ink);stroke-width:1px;vector-effect:non-scaling-stroke}
.shut{fill:none;stroke:var(--er);stroke-width:2px;stroke-dasharray:2 2;vector-effect:non-scaling-stroke}
.chart rect{fill:var(--ink);fill-opacity:.06;stroke:var(--soft);stroke-width:1px;vector-effect:non-scaling-stroke}
.chart a:hover rect,.chart a:focus rect{fill-opacity:.2;stroke:var(--link);stroke-width:3px}
.er{stroke:var(--er);stroke-dasharray:.2 .1}.ca{stroke:var(--ca);stroke-dasharray:.7 .1 .1 .1}
.az{stroke:var(--az);stroke-dasharray:.4 .1}.ds{stroke:var(--ds);stroke-dasharray:.4 .1}
.as{stroke:var(--as);stroke-dasharray:.3 .2}.ls{stroke:var(--ls);stroke-dasharray:.15 .1}
.df{stroke:var(--df)}.af{stroke:var(--af);stroke-dasharray:.9 .1}.lf{stroke:var(--lf);stroke-dasharray:.6 .1 .2 .1}
.na{stroke:var(--na);stroke-dasharray:.1 .1}
.v0,.l0{--k:var(--c0);--g:none}.v1,.l1{--k:var(--c1);--g:9 1}.v2,.l2{--k:var(--c2);--g:4 1}.v3,.l3{--k:var(--c3);--g:2 1}
.v4,.l4{--k:var(--c4);--g:9 1 2 1}.v5{--k:var(--c5);--g:6 2}.v6{--k:var(--c6);--g:3 2}.v7{--k:var(--c7);--g:1 1}.v8{--k:var(--c8);--g:12 2}
.by-driver,.by-class{display:none}
.legend .w{stroke:var(--k);stroke-dasharray:var(--g);vector-effect:non-scaling-stroke}
#colours:has(#by-driver:checked,#by-class:checked)~.by-cause{display:none}
#colours:has(#by-driver:checked)~.by-driver,#colours:has(#by-class:checked)~.by-class{display:flex}
#colours:has(#by-driver:checked,#by-class:checked)~.stretch .w{stroke:var(--k);stroke-dasharray:var(--g);vector-effect:non-scaling-stroke}
.t{stroke:var(--ink)}
.z{stroke:var(--soft);stroke-width:1px;stroke-dasharray:3 2;vector-effect:non-scaling-stroke}
.o,.i{stroke:var(--ink);stroke-width:7px;stroke-linecap:round;vector-effect:non-scaling-stroke}
.i{stroke:var(--ground);stroke-width:4px}
.b g:hover>.w,.b g:target>.w{stroke:var(--ink)}.b g:target>.i{stroke:var(--er)}
table{border-collapse:collapse;font-variant-numeric:tabular-nums;margin:0 0 20px;font-size:14px}
caption{text-align:left;font-weight:600;padding:0 0 4px}
th,td{padding:3px 8px;text-align:right;border-bottom:1px solid var(--line);vertical-align:top}
thead th{color:var(--soft);font-weight:500;font-size:13px;vertical-align:bottom}
th:first-child,#stays :is(th,td):is(:nth-child(2),:nth-child(3),:last-child){text-align:left}
#stays a,#stays span{white-space:nowrap}
th[scope=row]{font-weight:500}
h1,.label,.legend li,th[scope=row],#stays td:nth-child(2),#stays td:nth-child(3){overflow-wrap:anywhere}
#stays th[scope=row],#stays td:nth-child(2),#stays td:nth-child(3){min-width:7.5em}
#words dt{font-weight:600}#words dd{margin:0 0 6px;max-width:80ch}
@media(max-width:1059px){main{padding:12px}.row{grid-template-columns:minmax(0,1fr)}
.wide,.wide tbody,.wide tr,.wide caption{display:block}.wide thead{position:absolute;width:1px;height:1px;overflow:hidden;clip-path:inset(50%)}
.wide tr{display:flex;flex-wrap:wrap;gap:0 14px;padding:6px 0;border-bottom:1px solid var(--line)}
.wide th,.wide td{border:0;padding:1px 0;text-align:left}.wide th[scope=row]{flex-basis:100%}
.wide td::before{color:var(--soft);margin-right:5px}
.waits td:nth-child(2)::before{content:'stays'}.waits td:nth-child(3)::before{content:'waited'}.waits td:nth-child(4)::before{content:'p50'}
.waits td:nth-child(5)::before{content:'p90'}.waits td:nth-child(6)::before{content:'p99'}.waits td:nth-child(7)::before{content:'p99.9'}
.waits td:nth-child(8)::before{content:'max'}.waits td:nth-child(9)::before{content:'live'}.waits td:nth-child(10)::before{content:'best'}
.waits td:nth-child(11)::before{content:'excess'}
#stays br{display:none}#stays td:nth-child(n){min-width:0}
#stays td:nth-child(4)::before{content:'priority'}#stays td:nth-child(5)::before{content:'arrival'}#stays td:nth-child(6)::before{content:'sent'}
#stays td:nth-child(7)::before{content:'best'}#stays td:nth-child(8)::before{content:'waited'}#stays td:nth-child(9)::before{content:'cost'}}
@media(max-width:599px){.narrow,.narrow tbody,.narrow tr,.narrow caption{display:block}
.narrow thead{position:absolute;width:1px;height:1px;overflow:hidden;clip-path:inset(50%)}
.narrow tr{display:flex;flex-wrap:wrap;gap:0 14px;padding:6px 0;border-bottom:1px solid var(--line)}
.narrow th,.narrow td{border:0;padding:1px 0;text-align:left}.narrow th[scope=row]{flex-basis:100%}
.narrow td::before{color:var(--soft);margin-right:5px}
#parts td:nth-child(2)::before{content:'live'}#parts td:nth-child(3)::before{content:'share'}#parts td:nth-child(4)::before{content:'best'}
#parts td:nth-child(5)::before{content:'excess'}#freezes td:nth-child(3)::before{content:'rounds'}
#freezes td:nth-child(4)::before{content:'to'}#freezes td:nth-child(5)::before{content:'cost'}}
@media print{main{padding:0;max-width:none}.back{display:none}a{color:inherit}tr,.row,.legend,h2,h3{break-inside:avoid}
h2,h3,caption,.stretch>p,.stretch>p+.row{break-after:avoid}.shared+.row:not(.shared){break-before:avoid}
.row svg:not(:has(.b>:nth-child(250))){max-height:calc(100vh - 14em)}
.b{--e:-6px}.b[stroke-width='6']{--e:-3px}.b[stroke-width='4']{--e:-2px}.b .w{clip-path:inset(var(--e) 0) fill-box}
*{print-color-adjust:exact;-webkit-print-color-adjust:exact}}
";
