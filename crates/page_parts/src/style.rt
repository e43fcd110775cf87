//! How pages look: one typeface of the system, two colours with a tint of each, and ink for trades
//! and the offence. The two differ in lightness as well as in hue, so that they are told apart
//! without colour sight and in print.
ghost use Rattle.std.specs.Prelude.{◌≡◌, false};
ghost use Rattle.page_markup.specs.Escapes.{escaped};
ghost use Rattle.page_parts.specs.Outside.{names_outside};

/// The style of a page. A row of a table may end before its last column, so rows have the lines.
const STYLE: &[u8] = b":root{--ink:#1c2128;--soft:#57606a;--rule:#d0d7de;\
--bid:#1f4e8c;--bidtint:#c3d5ec;--ask:#c26a12;--asktint:#f9e6cf}\
*{box-sizing:border-box}\
body{margin:0;background:#fff;color:var(--ink);font:16px/1.5 system-ui,sans-serif}\
main{max-width:46rem;margin:0 auto;padding:2rem 1rem 3rem}\
h1{font-size:1.6rem;line-height:1.25;margin:0 0 .5rem;overflow-wrap:anywhere;white-space:pre-wrap}\
h2{font-size:1.1rem;margin:2rem 0 .5rem}\
p{margin:.4rem 0;white-space:pre-wrap;overflow-wrap:anywhere}\
figcaption,caption{color:var(--soft);font-size:.9rem}\
section{overflow-x:auto}\
table{border-collapse:collapse;width:100%;font-size:.85rem;font-variant-numeric:tabular-nums}\
caption{text-align:left;padding:0 0 .35rem}\
th,td{padding:.3rem .4rem;vertical-align:top}\
.text,tbody th{text-align:left}\
tr{border-bottom:1px solid var(--rule)}\
thead tr{border-bottom:2px solid var(--ink)}\
thead th{color:var(--soft);font-weight:600}\
tbody th{font-weight:600;min-width:8rem}\
.number{text-align:right}\
.name{white-space:pre-wrap;overflow-wrap:anywhere;min-width:3.5rem}\
figure{margin:0}\
figcaption{margin-top:.4rem}\
svg{display:block;width:100%;height:auto}\
code{display:block;background:#f6f8fa;padding:.6rem .75rem;font:.85rem/1.45 ui-monospace,monospace;\
white-space:pre-wrap;overflow-wrap:anywhere}\
svg text{font:11px system-ui,sans-serif}\
svg .tick{fill:var(--soft)}\
svg .label{fill:var(--ink);font-weight:600;transform:translateY(-4px)}\
svg .bids{fill:var(--bid);font-weight:600}\
svg .asks{fill:var(--ask);font-weight:600}\
svg .grid{stroke:#e6eaee;stroke-width:1}\
svg .axis{stroke:var(--soft);stroke-width:1}\
svg .bid{fill:var(--bidtint);stroke:var(--bid);stroke-width:1}\
svg .ask{fill:var(--asktint);stroke:var(--ask);stroke-width:1}\
svg .bidtraded{fill:var(--bid)}\
svg .asktraded{fill:var(--ask)}\
svg .bidline{fill:none;stroke:var(--bid);stroke-width:1}\
svg .askline{fill:none;stroke:var(--ask);stroke-width:1}\
svg .volume{stroke:var(--ink);stroke-width:1.5}\
svg .greatest{stroke:var(--ink);stroke-width:1.5;stroke-dasharray:5 3}\
svg .price{stroke:var(--ink);stroke-width:1;stroke-dasharray:1 3}\
svg .trade{fill:var(--ink)}\
svg .mark{fill:none;stroke:var(--ink);stroke-width:2}\
svg .badge{fill:var(--ink)}\
svg .badgetext{fill:#fff;font-weight:700}\
@media(max-width:34rem){main{padding:1rem .6rem 2rem}table{font-size:.7rem}th,td{padding:.25rem .15rem}\
tbody th{min-width:4.5rem}.name{min-width:2.2rem}}\
@page{size:A4;margin:16mm}\
@media print{main{padding:0;max-width:none}body{font-size:11pt;-webkit-print-color-adjust:exact;\
print-color-adjust:exact}section,figure,tr{break-inside:avoid}section{overflow:visible}\
table{font-size:.72rem}th,td{padding:.25rem}td.number{overflow-wrap:anywhere;min-width:4.5em}}";

/// The style of a page. It holds none of the bytes that are written as entities, since a browser
/// reads no entity in a style, and names nothing outside of the page. No contract says which colour
/// anything has.
pub fn style_text() -> &'static [u8]
    ensures plain { escaped result.now ≡ result.now }
    ensures inside { names_outside result.now ≡ false }
{
    STYLE
}
