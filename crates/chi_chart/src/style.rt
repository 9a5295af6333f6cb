//! How a chart looks.

/// Its colours on light and on dark ground, its fonts, and the ends of its arrows.
/// Source: `docs/FORMATS.md`, "Charts".
const STYLE: &str = "<style>\n\
    svg{--paper:#fff;--ink:#1c2024;--faint:#dfe3e8;--slice:#eef1f5;--life:#9aa3ad;--req:#1f5fbf;\
    --snp:#b3540a;--rsp:#5b6570;--dat:#12764a;--bad:#c4161c;--bar:#7d5bd0}\n\
    @media (prefers-color-scheme:dark){svg{--paper:#15181c;--ink:#e4e7ea;--faint:#2b3138;\
    --slice:#21262c;--life:#6b747e;--req:#7db1ff;--snp:#f0a35e;--rsp:#aab4be;--dat:#5fd39c;\
    --bad:#ff7b7b;--bar:#a58bef}}\n\
    text{font:11px ui-monospace,Menlo,Consolas,'DejaVu Sans Mono','Liberation Mono',monospace;\
    fill:#1c2024;fill:var(--ink)}\n\
    path{fill:none}\n\
    .title{font:bold 13px system-ui,'Segoe UI',Arial,'DejaVu Sans','Liberation Sans',sans-serif;\
    text-anchor:middle}\n\
    .paper{fill:#fff;fill:var(--paper)}\n\
    .slice{fill:#eef1f5;fill:var(--slice);stroke:#dfe3e8;stroke:var(--faint)}\n\
    .life{stroke:#9aa3ad;stroke:var(--life);stroke-width:1.5}\n\
    .rule{stroke:#dfe3e8;stroke:var(--faint)}\n\
    .Req{stroke:#1f5fbf;stroke:var(--req)}.Snp{stroke:#b3540a;stroke:var(--snp)}\
    .RspDown,.RspUp{stroke:#5b6570;stroke:var(--rsp)}.DatDown,\
    .DatUp{stroke:#12764a;stroke:var(--dat)}\n\
    text.flit{stroke:none}\n\
    text.Req{fill:#1f5fbf;fill:var(--req)}text.Snp{fill:#b3540a;fill:var(--snp)}\
    text.RspDown,text.RspUp{fill:#5b6570;fill:var(--rsp)}\
    text.DatDown,text.DatUp{fill:#12764a;fill:var(--dat)}\n\
    .state{text-anchor:end;font-weight:bold}.UD,.SD{fill:#b3540a;fill:var(--snp)}\n\
    .refused{fill:#c4161c;fill:var(--bad);font-weight:bold}\n\
    .bar{stroke:#7d5bd0;stroke:var(--bar);stroke-width:10}.compack{stroke-opacity:.6}\
    .wrdata{stroke-opacity:.35}\n\
    .serving{fill:#7d5bd0;fill:var(--bar)}\n\
    .number{text-anchor:end;fill:#9aa3ad;fill:var(--life)}\n\
    .heading{font:12px system-ui,'Segoe UI',Arial,'DejaVu Sans','Liberation Sans',sans-serif}\n\
    .title,.heading,.wanted{paint-order:stroke;stroke:#fff;stroke:var(--paper);stroke-width:3px}\n\
    .wanted{fill:#c4161c;fill:var(--bad);font-weight:bold}\
    .differs{fill:#c4161c;fill:var(--bad);fill-opacity:.12}\n\
    </style>\n\
    <defs><marker id='head' viewBox='0 0 8 8' refX='8' refY='4' markerWidth='8' markerHeight='8' \
    orient='auto'><path d='M0 0L8 4L0 8z' style='fill:context-stroke'/></marker>\n\
    <marker id='open' viewBox='0 0 8 8' refX='4' refY='4' markerWidth='8' markerHeight='8'>\
    <circle cx='4' cy='4' r='3' style='fill:#fff;fill:var(--paper);\
    stroke:context-stroke'/></marker></defs>\n";

/// Its bytes.
pub(crate) fn style() -> &'static [u8] {
    STYLE.as_bytes()
}
